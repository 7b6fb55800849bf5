//! Whether cells of loops nest too deep for a worker's stack.

ghost use Rattle.std.specs.Prelude.{◌<◌, ℕ, IsTrue};
ghost use Rattle.counted_code.specs.View.{code_program};
ghost use Rattle.code_nesting.specs.Promised.{AreShallowGens, AreShallowParts, Bounds};

use crate::needs::{LIMIT, needs_of};
use crate::walk::{gens_need, parts_need};
use counted_code::{Code, CodeGen, CodePart};
use std::alloc::Global;

/// How deep the cells of a loop may nest. It has no say in any result: it only decides whether phases are shared out to
/// workers, in whose threads there is less room for nested blocks.
#[derive(Drop)]
pub enum Nesting {
    /// No cell is too deep: all run on the caller's thread, whose stack has room for each depth.
    Unlimited,
    /// Each cell may be too deep: there was no memory to find out.
    Unknown,
    /// How many blocks may nest in a call of each function, up to one more than the limit.
    Known(Vec<u32>),
}

impl Nesting {
    /// How deep calls nest for so many workers when they may go `levels` deep.
    pub fn of(alloc: Global, code: &Code, levels: u64, workers: u32) -> Nesting
        ensures { 1 < workers → Bounds result (code_program code.now) levels }
    {
        if workers <= 1 {
            return Nesting::Unlimited;
        }
        match needs_of(alloc, code, levels) {
            Ok(Some(needs)) => Nesting::Known(needs),
            Ok(None) | Err(_) => Nesting::Unknown,
        }
    }

    /// Whether no cell of these generators is too deep for a worker's stack.
    pub fn gens_have_room(&self, gens: &[CodeGen], code: &Code) -> bool
        ensures { IsTrue result → (levels : ℕ) → Bounds self.now (code_program code.now) levels
            → AreShallowGens (code_program code.now) levels gens.now }
    {
        match self {
            Nesting::Unlimited => true,
            Nesting::Unknown => false,
            Nesting::Known(needs) => gens_need(gens, code, needs, needs) <= LIMIT,
        }
    }

    /// The same of the cells of parts.
    pub fn parts_have_room(&self, parts: &[CodePart], code: &Code) -> bool
        ensures { IsTrue result → (levels : ℕ) → Bounds self.now (code_program code.now) levels
            → AreShallowParts (code_program code.now) levels parts.now }
    {
        match self {
            Nesting::Unlimited => true,
            Nesting::Unknown => false,
            Nesting::Known(needs) => parts_need(parts, code, needs, needs) <= LIMIT,
        }
    }
}
