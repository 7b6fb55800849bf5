//! Loops over cells whose checks have passed.

ghost use Rattle.std.specs.Prelude.{◌≡◌, option_map};
ghost use Rattle.run_loops.specs.Loops.{body_of, gen_body, held_body, part_body, placed_body};

use crate::holders::{holder, part_holder};
use array_with_loops::{Plan, Range};
use core_ir::Var;
use counted_code::{CodeBlock, CodeGen, CodePart};
use run_values::RunValue;
use sac_base::{Array, Op, Site};

/// A loop over cells whose checks have passed.
#[derive(Clone, Copy)]
pub struct CellLoop<'a> {
    /// Where its cells come from.
    pub source: CellSource<'a>,
    /// Its indices, what each cell must be, the shape of the result, and the ranges of generators.
    pub plan: &'a Plan,
    /// What is made of its cells.
    pub result: LoopResult<'a>,
}

/// Where the cells of a loop come from.
#[derive(Clone, Copy)]
pub enum CellSource<'a> {
    /// From the first generator whose range holds the index.
    Generators(&'a [CodeGen]),
    /// From the first part whose grid contains the index.
    Parts(&'a [CodePart]),
}

/// What is made of the cells of a loop.
#[derive(Clone, Copy)]
pub enum LoopResult<'a> {
    /// An array. Where an index has no cell, the old array's cell stands, or a default: an array of the heap in which the loop
    /// begins.
    Filled { array: RunValue, old: bool },
    /// An array of the cells alone.
    Joined,
    /// The cells combined, beginning with a neutral value.
    Folded { op: Op, neutral: &'a Array },
}

/// What computes the cell of an index: the variables for the index and for its components, and where it is a fault that the
/// cell has another form.
#[derive(Clone, Copy)]
pub struct CellBody<'a> {
    pub block: &'a CodeBlock,
    pub index: Var,
    pub names: &'a [Var],
    pub site: Site,
}

/// What computes the cell of an index, if the index has one. The ranges are those of generators.
pub fn body_at<'a>(source: &CellSource<'a>, ranges: &[Range], index: &[i32]) -> Option<CellBody<'a>>
    ensures { option_map body_of result ≡ held_body source.now ranges.now index.now }
{
    match source {
        CellSource::Generators(gens) => match holder(gens, ranges, index) {
            Some(g) => Some(body_of_gen(g)),
            None => None,
        },
        CellSource::Parts(parts) => match part_holder(parts, index) {
            Some(part) => Some(body_of_part(part)),
            None => None,
        },
    }
}

/// What computes the cells of the generator or part at a place of the source, if there is one.
pub fn body_of_place<'a>(source: &CellSource<'a>, place: usize) -> Option<CellBody<'a>>
    ensures { option_map body_of result ≡ placed_body source.now place }
{
    match source {
        CellSource::Generators(gens) => match gens.get(place) {
            Some(g) => Some(body_of_gen(g)),
            None => None,
        },
        CellSource::Parts(parts) => match parts.get(place) {
            Some(part) => Some(body_of_part(part)),
            None => None,
        },
    }
}

/// What computes the cells of a generator.
pub fn body_of_gen(g: &CodeGen) -> CellBody<'_>
    ensures { body_of result ≡ gen_body g.now }
{
    CellBody {
        block: &g.body,
        index: g.index,
        names: &g.names,
        site: g.site,
    }
}

/// What computes the cells of a part, whose components have no names.
pub fn body_of_part(part: &CodePart) -> CellBody<'_>
    ensures { body_of result ≡ part_body part.now }
{
    CellBody {
        block: &part.body,
        index: part.index,
        names: &[],
        site: part.site,
    }
}
