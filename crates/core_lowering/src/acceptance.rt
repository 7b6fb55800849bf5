//! What acceptance of a program says for its lowering to the core.

mod laws;

pub use laws::{
    accepted_core, accepted_definite, accepted_main, accepted_standing, accepted_typed,
};
