//! What is noted of variables within a block, looked up by number and taken back at the block's end.

mod slots;
mod table;

pub use table::ScopedTable;
