//! Values in a store of buffers: references that are kept and released, arrays that are read and placed, selections, and
//! the results of loops while they are made.
#![tactic(auto)]

mod access;
mod arrays;
mod lent;
mod select;
mod slices;
mod store;
mod target;
mod update;

pub use access::{buffer_cells, keep, release};
pub use arrays::{
    array_of, place_array, place_cells, place_own, place_result, read_array, take_array,
};
pub use lent::{ChunkPart, Lent, lent_counts};
pub use select::select_value;
pub use store::Store;
pub use target::{Target, claim, copy_into, fits, is_small, overwrite, same_sizes, settle, write};
pub use update::update_element;
