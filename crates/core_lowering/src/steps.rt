//! The lowering as it goes, binding after binding: its definition, and that it makes what the lowering says.

mod laws;

pub use laws::{
    made_blocks, made_expressions, made_functions, made_generators, made_lists, made_operations,
    made_starts,
};
