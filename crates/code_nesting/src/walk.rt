//! How many blocks may nest within a block, by tables of what calls of functions need.

ghost use Rattle.std.specs.Prelude.{◌≡◌, ◌≤◌, [], IsTrue, slice_get, slice_index, slice_index_or};
ghost use Rattle.counted_code.specs.View.{code_program, code_right_term, code_term, code_with_term, code_parted_term};
ghost use Rattle.code_nesting.specs.Needs.{GensNeed, Needs, PartsNeed, PlacesNeed, RightNeeds, StepNeeds, StepsNeed, called_need, inlines};
ghost use Rattle.code_nesting.specs.Nested.{most_nested};
ghost use Rattle.counted_code.specs.Pieces.{gens_term, parts_term};

use counted_code::{Code, CodeBlock, CodeGen, CodePart, CodeParted, CodeRight, CodeStep, CodeWith};

/// How many blocks may nest within a block, where `here` has what calls of inline functions need, and `below` the others, up
/// to the limit.
#[cycle(walk)]
pub fn block_need(block: &CodeBlock, code: &Code, below: &[u32], here: &[u32]) -> u32
    ensures { result ≤ most_nested → Needs (code_program code.now) below.now here.now (code_term block.now) result }
{
    steps_need(&block.steps, code, below, here)
}

#[cycle(walk)]
fn steps_need(steps: &[CodeStep], code: &Code, below: &[u32], here: &[u32]) -> u32
    ensures { result ≤ most_nested → StepsNeed (code_program code.now) below.now here.now steps.now result }
{
    let mut greatest = 0u32;
    for step in steps {
        greatest = greatest.max(step_need(step, code, below, here));
    }
    greatest
}

#[cycle(walk)]
fn step_need(step: &CodeStep, code: &Code, below: &[u32], here: &[u32]) -> u32
    ensures { result ≤ most_nested → StepNeeds (code_program code.now) below.now here.now step.now result }
{
    match step {
        CodeStep::Bind(binding) => right_need(&binding.right, code, below, here),
        CodeStep::Keep(_) => 0,
        CodeStep::Release(_) => 0,
    }
}

// The same of a right side, whose own blocks count.
#[cycle(walk)]
fn right_need(right: &CodeRight, code: &Code, below: &[u32], here: &[u32]) -> u32
    ensures { result ≤ most_nested → RightNeeds (code_program code.now) below.now here.now (code_right_term right.now) result }
{
    match right {
        CodeRight::If { yes, no, .. } => {
            let first = block_need(yes, code, below, here);
            let second = block_need(no, code, below, here);
            first.max(second).saturating_add(1)
        }
        CodeRight::Loop { test, body, .. } => {
            let first = block_need(test, code, below, here);
            let second = block_need(body, code, below, here);
            first.max(second).saturating_add(1)
        }
        CodeRight::With(with) => with_need(with, code, below, here),
        CodeRight::Parted(parted) => parted_need(parted, code, below, here),
        CodeRight::Call { group, .. } => group_need(
            *group as usize,
            code,
            below,
            here,
        ).saturating_add(1),
        _ => 0,
    }
}

#[cycle(walk)]
fn with_need(with: &CodeWith, code: &Code, below: &[u32], here: &[u32]) -> u32
    ensures { result ≤ most_nested → RightNeeds (code_program code.now) below.now here.now (code_with_term with.now) result }
{
    gens_need(&with.gens, code, below, here).saturating_add(1)
}

#[cycle(walk)]
fn parted_need(parted: &CodeParted, code: &Code, below: &[u32], here: &[u32]) -> u32
    ensures { result ≤ most_nested → RightNeeds (code_program code.now) below.now here.now (code_parted_term parted.now) result }
{
    parts_need(&parted.parts, code, below, here).saturating_add(1)
}

/// The same of the blocks of generators, which are not counted themselves.
#[cycle(walk)]
pub fn gens_need(gens: &[CodeGen], code: &Code, below: &[u32], here: &[u32]) -> u32
    ensures { result ≤ most_nested → GensNeed (code_program code.now) below.now here.now (gens_term gens.now) result }
{
    let mut greatest = 0u32;
    for generator in gens {
        greatest = greatest.max(block_need(&generator.body, code, below, here));
    }
    greatest
}

/// The same of the blocks of parts.
#[cycle(walk)]
pub fn parts_need(parts: &[CodePart], code: &Code, below: &[u32], here: &[u32]) -> u32
    ensures { result ≤ most_nested → PartsNeed (code_program code.now) below.now here.now (parts_term parts.now) result }
{
    let mut greatest = 0u32;
    for part in parts {
        greatest = greatest.max(block_need(&part.body, code, below, here));
    }
    greatest
}

// The greatest need of an instance of a group.
fn group_need(group: usize, code: &Code, below: &[u32], here: &[u32]) -> u32
    ensures { PlacesNeed (code_program code.now) below.now here.now (slice_index_or (code_program code.now).groups group []) result }
{
    match code.groups.get(group) {
        Some(places) => places_need(places, code, below, here),
        None => 0,
    }
}

fn places_need(places: &[u32], code: &Code, below: &[u32], here: &[u32]) -> u32
    ensures { PlacesNeed (code_program code.now) below.now here.now places.now result }
{
    let mut greatest = 0u32;
    for place in places {
        greatest = greatest.max(call_need(*place as usize, code, below, here));
    }
    greatest
}

// What a call of the function at a place needs. An inline one runs at its caller's level.
fn call_need(place: usize, code: &Code, below: &[u32], here: &[u32]) -> u32
    ensures { result ≡ called_need (code_program code.now) below.now here.now place }
{
    if is_inline(place, code) {
        need_at(place, here)
    } else {
        need_at(place, below)
    }
}

fn is_inline(place: usize, code: &Code) -> bool
    ensures { result ≡ inlines (slice_get (code_program code.now).functions place) }
{
    match code.functions.get(place) {
        Some(function) => function.inline,
        None => false,
    }
}

/// What a table has of the function at a place.
pub fn need_at(place: usize, needs: &[u32]) -> u32
    ensures { result ≡ slice_index needs.now place }
{
    match needs.get(place) {
        Some(need) => *need,
        None => 0,
    }
}
