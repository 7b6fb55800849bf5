//! The function that a program begins with.

ghost use Rattle.std.specs.Prelude.{◌≡◌, ◌<◌, IfSome, find, length, option_map, position};
ghost use Rattle.sac_ast.specs.Mains.{is_main};
ghost use Rattle.sac_ast.specs.View as view;

use crate::{Function, Program};

impl Program {
    /// The first function of the name `main`, which a program begins with.
    pub fn main(&self) -> Option<&Function>
        ensures { option_map (λ f. view.function f.now) result ≡ find is_main (view.functions self.now.functions.items) }
    {
        for function in &self.functions {
            if function.name.as_str() == "main" {
                return Some(function);
            }
        }
        None
    }

    /// The place of the first function of the name `main`.
    pub fn main_place(&self) -> Option<usize>
        ensures told { result ≡ position is_main (view.functions self.now.functions.items) }
        ensures within { IfSome result (λ place. place < length self.now.functions.items) }
    {
        for i in 0..self.functions.len() {
            if self.functions[i].name.as_str() == "main" {
                return Some(i);
            }
        }
        None
    }
}
