// The cells of a part as a slice, for a while.
ghost use Rattle.std.specs.Prelude.{◌≡◌, length};
ghost use Rattle.buffer_parts.specs.Lends.{lends_cells, lends_items};
ghost use types.Logic.{sem};

use crate::part::Part;
use crate::raw::RawPart;
use std::slice;

impl<T> RawPart<T> {
    // The cells, for writing.
    pub(crate) fn slice_mut(&mut self, len: usize) -> &mut [T]
        requires { len ≡ length self.old.items }
        ensures* writes_back { sem 𝓛 (lends_items T.row self.entry result) }
        ensures value { result.now ≡ self.old.items }
    {
        unsafe { slice::from_raw_parts_mut(self.ptr, len) }
    }
}

impl<T> Part<T> {
    /// The cells, for writing.
    pub fn as_mut_slice(&mut self) -> &mut [T]
        ensures* writes_back { sem 𝓛 (lends_cells T.row self.entry result) }
        ensures value { result.now ≡ self.old.cells }
    {
        self.raw.slice_mut(self.len)
    }
}
