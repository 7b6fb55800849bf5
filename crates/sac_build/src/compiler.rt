//! From an accepted program over its core to counted code.

ghost use Rattle.std.specs.Prelude.{◌≡◌, List, IfOk, map};
ghost use Rattle.sac_base.specs.Arrays.{ArrayValue, form_of};
ghost use Rattle.sac_base.specs.declared.faults.Caps.{Caps};
ghost use Rattle.sac_ast.specs.View.{program as tree};
ghost use Rattle.source_meaning.specs.Calls.{outcome};
ghost use Rattle.core_lowering.specs.acceptance.Formed.{ProgramFormed};
ghost use Rattle.counted_code.specs.View.{code_program};
ghost use Rattle.counted_code.specs.Counts.{IsWellCounted};
ghost use Rattle.counted_code.specs.Prompt.{IsPrompt};
ghost use Rattle.counted_code.specs.Outcome.{whole_run, outcome_of};
ghost use Rattle.counted_marks.specs.Marks.{IsWellMarked};
ghost use Rattle.sac_build.specs.Arguments.{AreArrays};
ghost use Rattle.sac_build.specs.Loops.{CameFrom, HasNoFoldablePair, HasNoMergeableNest, HasNoReuseCandidate, HasNormalLoops};
ghost use Rattle.sac_build.specs.Mains.{MainTakesForms};

use crate::loop_turns::optimise_loops;
use buffer_reuse::mark_reuse;
use const_shape::propagate;
use counted_code::Code;
use inline_calls::inline_all;
use ref_counts::count_refs;
use sac_base::{Form, Memory};
use single_assign::to_core;
use specialise::specialise;
use std::alloc::Global;
use type_check::Checked;

/// What a program was compiled to.
#[derive(Drop)]
pub struct Compiled {
    pub code: Code,
    /// How many parted loops were folded into others.
    pub folded: u64,
    /// How many with-loops were merged with the ones in their cells.
    pub scalarised: u64,
}

/// Compiles an accepted program for arguments of these forms.
///
/// Each mark in the code is an array that its loop may take over for its result, and no loop without a mark has such an array. Where the program has the
/// form that the grammar gives, the code is well counted and prompt, and on all arguments that are arrays of these forms and under all limits its
/// outcome on the machine is that of the program, faults and their sites included. Where the
/// types of the program's main contain these forms, main of the code takes arrays of these forms alone. In a function in which no right side always
/// faults, no with-loop is left that can become a parted loop. No pair of parted loops is left that can be folded, but for those whose producer has a
/// bound too far from 0 or a frame with gaps, and those whose consumer would get more than 64 parts. No loop is left that can be merged with the ones
/// in its cells, but for those that would get grids of more than 8 axes. The code came by turns from a core that has the program's outcome, with as many
/// fold steps as `folded` says and as many merge steps as `scalarised` says.
///
/// # Errors
///
/// `Memory`, also where the program has 2^32 functions or more, or would have as many variables in one of them, and where more than 1,048,576 bindings
/// would be put into functions by inlining.
pub fn compile(alloc: Global, checked: &Checked, forms: &[Form]) -> Result<Compiled, Memory>
    ensures counted { ProgramFormed (tree checked.now.program) → IfOk result (λ c. IsWellCounted (code_program c.code)) }
    ensures prompt { ProgramFormed (tree checked.now.program) → IfOk result (λ c. IsPrompt (code_program c.code)) }
    ensures marked { IfOk result (λ c. IsWellMarked (code_program c.code)) }
    ensures candidates { IfOk result (λ c. HasNoReuseCandidate (code_program c.code)) }
    ensures outcome { ProgramFormed (tree checked.now.program) → (args : List ArrayValue) (caps : Caps) → AreArrays args → map form_of args ≡ forms.now
        → IfOk result (λ c. outcome_of (whole_run (code_program c.code) args caps) ≡ outcome (tree checked.now.program) args caps) }
    ensures main { ProgramFormed (tree checked.now.program) → IfOk result (λ c. MainTakesForms (tree checked.now.program) forms.now (code_program c.code)) }
    ensures normal { ProgramFormed (tree checked.now.program) → IfOk result (λ c. HasNormalLoops (code_program c.code)) }
    ensures pairs { ProgramFormed (tree checked.now.program) → IfOk result (λ c. HasNoFoldablePair (code_program c.code)) }
    ensures nests { ProgramFormed (tree checked.now.program) → IfOk result (λ c. HasNoMergeableNest (code_program c.code)) }
    ensures turns { ProgramFormed (tree checked.now.program) → IfOk result (λ c.
        CameFrom (tree checked.now.program) forms.now c.folded c.scalarised (code_program c.code)) }
{
    let core = to_core(alloc, checked)?;
    let inlined = inline_all(alloc, core)?;
    let special = specialise(alloc, inlined, forms)?;
    let settled = propagate(alloc, special)?;
    let loops = optimise_loops(alloc, settled)?;
    let counted = count_refs(alloc, loops.core)?;
    let code = mark_reuse(alloc, counted)?;
    Ok(Compiled {
        code,
        folded: loops.folded,
        scalarised: loops.scalarised,
    })
}
