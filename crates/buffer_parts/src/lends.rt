// A slice's cells as one part, for a while.
ghost use Rattle.std.specs.Prelude.{◌≡◌, ◌*◌, ◌^◌, ◌<◌, length};
ghost use Rattle.std.specs.Mem.{type_size};
ghost use Rattle.std.specs.Mem.Slots.{slots_items, slots_ptr, IsFull};
ghost use Rattle.buffer_parts.specs.Spans.{Span, span_of, IsRowOf, KeepsPlace};

use crate::Part;
use core::slots::{Slots, with_slots};

fn lent<T, S, F: FnOnce(Part<T>, S) -> (Part<T>, S)>(
    row: Slots<T>,
    state: S,
    f: F,
) -> (Slots<T>, S, ())
    requires full { IsFull row }
    requires callable { (whole : Span T) → whole.cells ≡ slots_items row → length whole.cells * type_size T.row < 2 ^ 63 → F.pre f whole state }
    ensures { (back : Span T) × F.post f (span_of (slots_ptr row) (slots_items row)) state (back, result.1) × IsRowOf result.0 back }
{
    let (back, state) = f(Part::of(row), state);
    (back.into_slots(), state, ())
}

/// Lends the cells of `buffer` to `f` as one part, with what `state` points to, and has them back: `f` gives a part in the
/// same place and of the same length, and the buffer then holds its cells. Nothing is copied.
pub fn lend<T: Copy, S, F: FnOnce(Part<T>, S) -> (Part<T>, S)>(
    buffer: &mut [T],
    state: &mut S,
    f: F,
)
    requires callable { (whole : Span T) → whole.cells ≡ buffer.old → length whole.cells * type_size T.row < 2 ^ 63 → F.pre f whole state.old }
    requires returns { (whole : Span T) (out : Span T × S) → whole.cells ≡ buffer.old → F.post f whole state.old out → KeepsPlace whole out.0 }
    ensures { (whole : Span T) × (back : Span T) × (whole.cells ≡ buffer.old) × F.post f whole state.old (back, state.new) × (buffer.new ≡ back.cells) }
{
    unsafe { with_slots(buffer, state, f, lent) }
}
