//! What a parser by recursive descent is made of: steps over tokens, tables of operators, trees from their parts with their heights, and
//! the phrases without expressions in them.
#![tactic(auto)]

pub mod cursor;
pub mod halt;
pub mod leaf;
pub mod level;
pub mod node;
pub mod place;
