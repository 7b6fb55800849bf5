//! Counted code: a core with steps that keep and release references to buffers, the machine that evaluates it, and when the references are well counted.
#![tactic(auto)]

mod operands;
mod tree;

pub use tree::{
    Code, CodeBlock, CodeFun, CodeGen, CodeLet, CodePart, CodeParted, CodeRight, CodeStep,
    CodeWith, Cost,
};
