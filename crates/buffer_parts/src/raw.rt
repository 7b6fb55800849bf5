// Values side by side in a part of a block, owned by a pointer alone.
ghost use Rattle.std.specs.Prelude.{◌≡◌, ◌+◌, ◌*◌, ◌^◌, ◌<◌, ◌≤◌, ◌++◌, List, length, take, drop};
ghost use Rattle.std.specs.Mem.{type_size};
ghost use Rattle.std.specs.Ptr.{ptr_add};
ghost use Rattle.std.specs.Mem.Slots.{slots_items, slots_ptr, slots_len, IsFull};
ghost use Rattle.atomic_table.specs.Seated.{strip};

use core::slots::Slots;
use std::marker::{Model, Send};

// What it owns is lent by a slice, so a drop frees nothing.
#[derive(Drop)]
pub(crate) struct RawPart<T> {
    pub(crate) ptr: *mut T,
    pub(crate) ghost items: { List T },
}

impl<T> Model for RawPart<T> {
    ghost also_owns = { λ s. strip T.row s.ptr s.items };
}

unsafe impl<T: Send> Send for RawPart<T> {}

impl<T> RawPart<T> {
    pub(crate) fn of(row: Slots<T>) -> RawPart<T>
        requires { IsFull row }
        ensures { (result.ptr ≡ slots_ptr row) × (result.items ≡ slots_items row) × (length result.items * type_size T.row < 2 ^ 63) }
    {
        let (ptr, _) = unsafe { row.into_raw_parts() };
        RawPart { ptr }
    }

    pub(crate) fn into_slots(self, len: usize) -> Slots<T>
        requires { len ≡ length self.items }
        ensures { (slots_ptr result ≡ self.ptr) × (slots_len result ≡ len) × (slots_items result ≡ self.items) × IsFull result }
    {
        let RawPart { ptr } = self;
        unsafe { Slots::from_raw_parts(ptr, len) }
    }

    pub(crate) fn split(self, at: usize) -> (RawPart<T>, RawPart<T>)
        requires { at ≤ length self.items }
        ensures front { (result.0.ptr ≡ self.ptr) × (result.0.items ≡ take at self.items) }
        ensures back { (result.1.ptr ≡ ptr_add T.row at self.ptr) × (result.1.items ≡ drop at self.items) }
    {
        let RawPart { ptr } = self;
        let end = unsafe { ptr.add(at) };
        (RawPart { ptr }, RawPart { ptr: end })
    }

    pub(crate) fn glue(self, next: RawPart<T>) -> RawPart<T>
        requires beside { next.ptr ≡ ptr_add T.row (length self.items) self.ptr }
        requires small { (length self.items + length next.items) * type_size T.row < 2 ^ 63 }
        ensures { (result.ptr ≡ self.ptr) × (result.items ≡ self.items ++ next.items) }
    {
        let RawPart { ptr } = self;
        let RawPart { ptr: _ } = next;
        RawPart { ptr }
    }
}
