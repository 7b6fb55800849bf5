//! The state of a run, and the code that runs.

ghost use Rattle.std.specs.Prelude.{◌≡◌, IsTrue};
ghost use Rattle.counted_code.specs.Counts.{IsWellCounted};
ghost use Rattle.counted_code.specs.View.{code_program};
ghost use Rattle.counted_marks.specs.Marks.{IsWellMarked};
ghost use Rattle.counted_code.specs.Pieces.{gens_term, parts_term};
ghost use Rattle.reach_checks.specs.Loops.{ClearGens, ClearParts};

use core_ir::Var;
use counted_code::{Code, CodeBlock, CodeGen, CodePart};
use phase_count::PhaseCount;
use reach_checks::{cells_are_clear, clear_groups, parted_cells_are_clear};
use run_kernels::PlainGroups;
use run_store::Store;
use run_values::Frames;
use sac_base::{Memory, Site};
use std::alloc::Global;
use std::marker::Model;

/// Code that is well counted and well marked.
#[derive(Drop)]
pub struct CountedCode<'a> {
    code: &'a Code,
    // which groups reach no mark, if there was memory to see it
    clear: Vec<bool>,
    seen: bool,
    // which groups loops may call in kernels
    plain: PlainGroups<'a>,
}

impl<'a> Model for CountedCode<'a> {
    ghost use Rattle.std.specs.Prelude.{◌≡◌, IsTrue};
    ghost use Rattle.counted_code.specs.Counts.{IsWellCounted};
    ghost use Rattle.counted_code.specs.View.{code_program};
    ghost use Rattle.counted_marks.specs.Marks.{IsWellMarked};
    ghost use Rattle.counted_laws.specs.mark_removal.Reached.{ReachesNone};
    ghost use Rattle.reach_checks.specs.Groups.{clear_in};
    ghost use Rattle.counted_code.specs.contracts.tree.Code as tree;
    ghost use Rattle.counted_code.specs.declared.tree.Code.{Code};

    ghost Value = { Code };

    ghost coded = { tree.the_row.coded };

    ghost view = { λ c. c.code.now };

    ghost invariant = { λ c. IsWellCounted (code_program c.code.now) × IsWellMarked (code_program c.code.now)
        × (IsTrue c.seen → ReachesNone (code_program c.code.now) (clear_in c.clear.items)) × (c.plain ≡ c.code.now) };
}

impl<'a> CountedCode<'a> {
    /// This code.
    pub fn of(alloc: Global, code: &'a Code) -> CountedCode<'a>
        requires counted { IsWellCounted (code_program code.now) }
        requires marked { IsWellMarked (code_program code.now) }
        ensures { result ≡ code.now }
    {
        match clear_groups(alloc, code) {
            Ok(clear) => CountedCode {
                code,
                clear,
                seen: true,
                plain: PlainGroups::of(alloc, code),
            },
            Err(Memory) => CountedCode {
                code,
                clear: Vec::new(alloc),
                seen: false,
                plain: PlainGroups::of(alloc, code),
            },
        }
    }

    /// The code.
    pub fn get(&self) -> &'a Code
        ensures same { result.now ≡ self.now }
        ensures counted { IsWellCounted (code_program self.now) }
        ensures marked { IsWellMarked (code_program self.now) }
    {
        self.code
    }

    /// Its groups that loops may call where they are run as kernels.
    pub fn plain(&self) -> &PlainGroups<'a>
        ensures { result.now ≡ self.now }
    {
        &self.plain
    }

    /// Whether the cells of a with-loop were seen to reach no mark.
    pub fn gens_reach_none(&self, gens: &[CodeGen]) -> bool
        ensures { IsTrue result → ClearGens (code_program self.now) (gens_term gens.now) }
    {
        self.seen && cells_are_clear(gens, &self.clear)
    }

    /// The same of a parted loop.
    pub fn parts_reach_none(&self, parts: &[CodePart]) -> bool
        ensures { IsTrue result → ClearParts (code_program self.now) (parts_term parts.now) }
    {
        self.seen && parted_cells_are_clear(parts, &self.clear)
    }
}

/// The code that runs, and how far it may go on.
#[derive(Clone, Copy)]
pub struct Context<'a> {
    pub alloc: Global,
    pub code: &'a CountedCode<'a>,
    /// The most turns of each execution of a loop.
    pub turns: u64,
    /// How many levels deeper a function may be called.
    pub left: u64,
    /// How many calls of inline functions may be nested.
    pub nest: u64,
    /// Calls are tried as kernels where no more levels are left than so many.
    pub tried: u64,
}

/// The variables, the buffers and the phases so far.
#[derive(Drop)]
pub struct State<'f, 'a> {
    pub frames: Frames<'f>,
    pub heap: Store<'a>,
    pub phases: PhaseCount,
}

impl<'f, 'a> State<'f, 'a> {
    /// The variables and the buffers.
    pub fn into_parts(self) -> (Frames<'f>, Store<'a>)
        ensures frames { result.0 ≡ self.entry.frames }
        ensures heap { result.1 ≡ self.entry.heap }
    {
        let State {
            frames,
            heap,
            phases: _,
        } = self;
        (frames, heap)
    }
}

/// A loop whose turns are run.
#[derive(Clone, Copy)]
pub struct Turn<'a> {
    pub params: &'a [Var],
    pub test: &'a CodeBlock,
    pub body: &'a CodeBlock,
    pub test_site: Site,
    pub site: Site,
}
