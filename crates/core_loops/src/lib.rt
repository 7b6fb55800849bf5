//! Words that passes over loops and their claims share: total bodies, partable with-loops, foldable pairs, scalarisable loops, weights.
#![tactic(auto)]

pub mod fold_steps;
pub mod folds;
pub mod index_facts;
pub mod merge;
pub mod merge_steps;
pub mod norm;
pub mod norm_steps;
pub mod settled_forms;
pub mod values;
