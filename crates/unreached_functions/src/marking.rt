//! What `main` reaches.

ghost use Rattle.std.specs.Prelude.{◌≡◌, ℕ, Bool, true, false, All, IfOk, Some, slice_get, unwrap_or};
ghost use Rattle.core_ir.specs.Outcome.{group_at};
ghost use Rattle.core_ir.specs.Terms.{FunTerm};
ghost use Rattle.core_ir.specs.View.{core_term, block_term};
ghost use Rattle.core_facts.specs.calls.Nests.{CallsAll, StandsIn};
ghost use Rattle.unreached_functions.specs.Closed.{IsMarked, IsClosed};

use crate::calls::add_calls;
use core_ir::{Block, Core};
use sac_base::Memory;
use std::alloc::Global;

/// Marks of the groups that are called, and of the functions that are reached.
#[derive(Drop)]
pub struct Marks {
    pub groups: Vec<bool>,
    pub functions: Vec<bool>,
}

/// What main reaches over calls. That nothing is missing, `is_closed` tells.
pub fn marks_of(alloc: Global, core: &Core) -> Result<Marks, Memory> {
    let mut marks = Marks {
        groups: vec![in alloc; false; core.groups.len()]?,
        functions: vec![in alloc; false; core.functions.len()]?,
    };
    let mut waiting = Vec::new(alloc);
    mark_function(core.main, &mut marks.functions, &mut waiting)?;
    // A function waits once at most.
    for _ in 0..core.functions.len() {
        if let Some(place) = waiting.pop() {
            mark_calls(alloc, core, place, &mut marks, &mut waiting)?;
        }
    }
    Ok(marks)
}

/// Marks a function. It waits until its calls are gone through, if it was not marked before.
fn mark_function(
    place: u32,
    functions: &mut Vec<bool>,
    waiting: &mut Vec<u32>,
) -> Result<(), Memory> {
    if is_marked(functions, place as usize) || place as usize >= functions.len() {
        return Ok(());
    }
    functions[place as usize] = true;
    waiting.push(place)?;
    Ok(())
}

/// Marks what the function at a place calls.
fn mark_calls(
    alloc: Global,
    core: &Core,
    place: u32,
    marks: &mut Marks,
    waiting: &mut Vec<u32>,
) -> Result<(), Memory> {
    let Some(function) = core.functions.get(place as usize) else {
        return Ok(());
    };
    let mut calls = Vec::new(alloc);
    add_calls(&function.body, &mut calls)?;
    for group in &calls {
        mark_group(core, *group, marks, waiting)?;
    }
    Ok(())
}

/// Marks a group and its instances.
fn mark_group(
    core: &Core,
    group: u32,
    marks: &mut Marks,
    waiting: &mut Vec<u32>,
) -> Result<(), Memory> {
    if is_marked(&marks.groups, group as usize) || group as usize >= marks.groups.len() {
        return Ok(());
    }
    marks.groups[group as usize] = true;
    let Some(places) = core.groups.get(group as usize) else {
        return Ok(());
    };
    for place in places {
        mark_function(*place, &mut marks.functions, waiting)?;
    }
    Ok(())
}

/// Whether main is marked, each instance of a marked group, and each group that a marked function calls.
pub fn is_closed(alloc: Global, core: &Core, marks: &Marks) -> Result<bool, Memory>
    ensures { IfOk result (λ b. b ≡ true → IsClosed (core_term core.now) marks.now.groups.items marks.now.functions.items) }
{
    if !is_marked(&marks.functions, core.main as usize) || !are_instances_marked(core, marks) {
        return Ok(false);
    }
    are_calls_marked(alloc, core, marks)
}

/// Whether a place is marked.
pub fn is_marked(marks: &[bool], place: usize) -> bool
    ensures { result ≡ unwrap_or (slice_get marks.now place) false }
{
    match marks.get(place) {
        Some(mark) => *mark,
        None => false,
    }
}

/// Whether all these places are marked.
fn are_marked(marks: &[bool], places: &[u32]) -> bool
    ensures { result ≡ true → All (IsMarked marks.now) places.now }
{
    for k in 0..places.len() {
        if !is_marked(marks, places[k] as usize) {
            return false;
        }
    }
    true
}

/// Whether the instances of marked groups are marked.
fn are_instances_marked(core: &Core, marks: &Marks) -> bool
    ensures { result ≡ true → (group place : ℕ) → IsMarked marks.now.groups.items group → StandsIn (group_at (core_term core.now) group) place
        → IsMarked marks.now.functions.items place }
{
    for k in 0..core.groups.len() {
        if is_marked(&marks.groups, k) && !are_marked(&marks.functions, &core.groups[k]) {
            return false;
        }
    }
    true
}

/// Whether marked functions call marked groups alone.
fn are_calls_marked(alloc: Global, core: &Core, marks: &Marks) -> Result<bool, Memory>
    ensures { IfOk result (λ b. b ≡ true → (place : ℕ) (f : FunTerm) → IsMarked marks.now.functions.items place
        → slice_get (core_term core.now).functions place ≡ Some f → CallsAll (IsMarked marks.now.groups.items) f.body) }
{
    for k in 0..core.functions.len() {
        if is_marked(&marks.functions, k) {
            let only_marked = calls_marked(alloc, &core.functions[k].body, &marks.groups)?;
            if !only_marked {
                return Ok(false);
            }
        }
    }
    Ok(true)
}

/// Whether a block calls marked groups alone.
fn calls_marked(alloc: Global, body: &Block, groups: &[bool]) -> Result<bool, Memory>
    ensures { IfOk result (λ b. b ≡ true → CallsAll (IsMarked groups.now) (block_term body.now)) }
{
    let mut calls = Vec::new(alloc);
    add_calls(body, &mut calls)?;
    Ok(are_marked(groups, &calls))
}
