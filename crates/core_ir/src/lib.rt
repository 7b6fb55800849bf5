//! The compiler's core: blocks in which each variable is bound once, what they mean, and when they are well formed.
#![tactic(auto)]

mod copy;
mod count;
mod laws;
mod operands;
mod tree;

pub use copy::{copy_block, copy_core, copy_function, copy_right};
pub use count::nodes;
pub use laws::{
    coincidence, function_by_function, renaming, replacing_one_place, splicing, unused_variable,
};
pub use operands::Operands;
pub use tree::{
    Block, Core, CoreFun, CoreGen, CoreOp, CorePart, Let, PartedLoop, PartedOp, Right, Var,
    WithLoop,
};
