// Many parts of one, and one of many.
ghost use Rattle.std.specs.Prelude.{◌≡◌, ◌+◌, ◌*◌, ◌^◌, ◌<◌, ◌≤◌, [], ◌∷◌, ◌++◌, length, map, vec_len, vec_capacity};
ghost use Rattle.std.specs.Mem.{type_size};
ghost use Rattle.std.specs.Ptr.{ptr_add};
ghost use Rattle.buffer_parts.specs.Spans.{SideBySide, joined, start_of, lengths};

use crate::Part;

/// Cuts a part into `count` parts of `size` cells, the last of which may have fewer. They are put into `parts`, which has
/// room for them, so nothing is allocated.
pub fn cut<T>(whole: Part<T>, size: usize, count: usize, parts: Vec<Part<T>>) -> Vec<Part<T>>
    requires room { (parts.items ≡ []) × (count ≤ vec_capacity parts) }
    requires enough { length whole.cells ≤ count * size }
    ensures side { SideBySide T.row whole.start result.items }
    ensures cells { joined result.items ≡ whole.cells }
    ensures lengths { map (λ p. length p.cells) result.items ≡ lengths size count (length whole.cells) }
{
    let mut parts = parts;
    let mut rest = whole;
    for _ in 0..count {
        let at = size.min(rest.len());
        let (front, back) = rest.split_at(at);
        parts.push_reserved(front);
        rest = back;
    }
    parts
}

/// Joins the parts of a list, which lie side by side.
pub fn join_all<T>(parts: Vec<Part<T>>) -> Part<T>
    requires some { 0 < length parts.items }
    requires side { SideBySide T.row (start_of parts.items) parts.items }
    requires small { length (joined parts.items) * type_size T.row < 2 ^ 63 }
    requires counted { length (joined parts.items) < 2 ^ 64 }
    ensures { (result.start ≡ start_of parts.items) × (result.cells ≡ joined parts.items) }
{
    let mut parts = parts;
    let Some(mut whole) = parts.pop() else {
        unreachable!()
    };
    while let Some(front) = parts.pop() {
        whole = front.join(whole);
    }
    whole
}
