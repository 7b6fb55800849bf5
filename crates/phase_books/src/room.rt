//! Whether the cells of a loop nest too deep for a worker's stack.

ghost use Rattle.std.specs.Prelude.{IsTrue, ℕ};
ghost use Rattle.code_nesting.specs.Promised.{Bounds};
ghost use Rattle.counted_code.specs.View.{code_program};
ghost use Rattle.phase_books.specs.Room.{IsShallowSource};

use code_nesting::Nesting;
use counted_code::Code;
use run_loops::CellSource;

/// Whether no cell of a source nests too deep for a worker's stack, by what is known of the code.
pub fn has_room_for(nesting: &Nesting, source: &CellSource<'_>, code: &Code) -> bool
    ensures { IsTrue result → (levels : ℕ) → Bounds nesting.now (code_program code.now) levels
        → IsShallowSource (code_program code.now) levels source.now }
{
    match source {
        CellSource::Generators(gens) => nesting.gens_have_room(gens, code),
        CellSource::Parts(parts) => nesting.parts_have_room(parts, code),
    }
}
