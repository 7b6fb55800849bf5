// A part of a lent buffer, with an owner of its own.
ghost use Rattle.std.specs.Prelude.{◌≡◌, ◌+◌, ◌*◌, ◌^◌, ◌<◌, ◌≤◌, ◌++◌, length, take, drop, slice_index_or, slice_set};
ghost use Rattle.std.specs.Mem.{type_size};
ghost use Rattle.std.specs.Ptr.{ptr_add};
ghost use Rattle.std.specs.Mem.Slots.{slots_items, slots_ptr, slots_len, IsFull};

use crate::raw::RawPart;
use core::slots::Slots;
use std::marker::Model;

/// Cells side by side that belong to whoever has the part. It may go to another thread, and its cells are written through a
/// `PartWriter`. They are lent by a slice, so dropping a part frees nothing; it only can't be joined any more.
#[derive(Drop)]
pub struct Part<T> {
    pub(crate) raw: RawPart<T>,
    pub(crate) len: usize,
}

impl<T> Model for Part<T> {
    ghost use Rattle.std.specs.Prelude.{◌≡◌, length};
    ghost use Rattle.buffer_parts.specs.Spans.{Span, span_of};

    ghost Value = { Span T };

    ghost view = { λ p. span_of p.raw.ptr p.raw.items };

    ghost invariant = { λ p. p.len ≡ length p.raw.items };
}

/// A part whose cells are being read and written, on one thread.
pub struct PartWriter<T> {
    row: Slots<T>,
}

impl<T> Model for PartWriter<T> {
    ghost use Rattle.buffer_parts.specs.Spans.{Span, span_of};
    ghost use Rattle.std.specs.Mem.Slots.{slots_items, slots_ptr, IsFull};

    ghost Value = { Span T };

    ghost view = { λ p. span_of (slots_ptr p.row) (slots_items p.row) };

    ghost invariant = { λ p. IsFull p.row };
}

impl<T> Part<T> {
    pub(crate) fn of(row: Slots<T>) -> Part<T>
        requires { IsFull row }
        ensures places { (result.start ≡ slots_ptr row) × (result.cells ≡ slots_items row) }
        ensures small { length result.cells * type_size T.row < 2 ^ 63 }
    {
        let len = row.len();
        Part {
            raw: RawPart::of(row),
            len,
        }
    }

    pub(crate) fn into_slots(self) -> Slots<T>
        ensures { (slots_ptr result ≡ self.start) × (slots_len result ≡ length self.cells) × (slots_items result ≡ self.cells) × IsFull result }
    {
        let Part { raw, len } = self;
        raw.into_slots(len)
    }

    /// The number of cells.
    pub fn len(&self) -> usize
        ensures { result ≡ length self.now.cells }
    {
        self.len
    }

    /// The first `at` cells, and the others.
    pub fn split_at(self, at: usize) -> (Part<T>, Part<T>)
        requires { at ≤ length self.cells }
        ensures front { (result.0.start ≡ self.start) × (result.0.cells ≡ take at self.cells) }
        ensures back { (result.1.start ≡ ptr_add T.row at self.start) × (result.1.cells ≡ drop at self.cells) }
    {
        let Part { raw, len } = self;
        let (front, back) = raw.split(at);
        (
            Part {
                raw: front,
                len: at,
            },
            Part {
                raw: back,
                len: len - at,
            },
        )
    }

    /// One part of two that lie side by side.
    pub fn join(self, next: Part<T>) -> Part<T>
        requires beside { next.start ≡ ptr_add T.row (length self.cells) self.start }
        requires small { (length self.cells + length next.cells) * type_size T.row < 2 ^ 63 }
        requires counted { length self.cells + length next.cells < 2 ^ 64 }
        ensures { (result.start ≡ self.start) × (result.cells ≡ self.cells ++ next.cells) }
    {
        let len = self.len + next.len;
        let Part { raw: front, len: _ } = self;
        let Part { raw: back, len: _ } = next;
        Part {
            raw: front.glue(back),
            len,
        }
    }

    /// The part to be written.
    pub fn into_writer(self) -> PartWriter<T>
        ensures { result ≡ self }
    {
        PartWriter {
            row: self.into_slots(),
        }
    }
}

impl<T: Copy> PartWriter<T> {
    /// Writes one cell.
    pub fn set(&mut self, index: usize, value: T)
        requires { index < length self.old.cells }
        ensures { (self.new.start ≡ self.old.start) × (self.new.cells ≡ slice_set self.old.cells index value) }
    {
        self.row.put(index, value);
    }

    /// Reads one cell.
    pub fn get(&self, index: usize) -> T
        requires { index < length self.now.cells }
        ensures { result ≡ slice_index_or self.now.cells index result }
    {
        *self.row.get(index)
    }

    /// The number of cells.
    pub fn len(&self) -> usize
        ensures { result ≡ length self.now.cells }
    {
        self.row.len()
    }

    /// The part, with the cells as they are now.
    pub fn into_part(self) -> Part<T>
        ensures { result ≡ self }
    {
        let PartWriter { row } = self;
        Part::of(row)
    }
}
