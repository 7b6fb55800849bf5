//! The groups of functions from which no mark is reached.

ghost use Rattle.std.specs.Prelude.{◌≡◌, ◌<◌, ◌&&◌, ◌||◌, [], IfOk, length, map, not, replicate, slice_get, slice_index_or, true};
ghost use Rattle.counted_code.specs.View.{code_fun_term, code_program};
ghost use Rattle.counted_laws.specs.mark_removal.Reached.{ReachesNone};
ghost use Rattle.reach_checks.specs.Groups.{all_clear, clear_in, member_is_clear as member_clear, members_are_clear as members_clear};
ghost use Rattle.reach_checks.specs.Groups.{narrowed as narrowed_groups, IsGreatest};

use crate::walk::{block_is_clear, group_is_clear};
use counted_code::{Code, CodeFun};
use sac_base::Memory;
use std::alloc::Global;

/// A table that says of each group whether no mark can be reached from its functions, and by calls from them. The greatest such table:
/// what it begins with, all groups, is narrowed until nothing changes (Kildall, POPL 1973).
///
/// # Errors
///
/// `Memory`: there is none for a table.
pub fn clear_groups(alloc: Global, code: &Code) -> Result<Vec<bool>, Memory>
    ensures closed { IfOk result (λ table. ReachesNone (code_program code.now) (clear_in table.items)) }
    ensures greatest { IfOk result (λ table. IsGreatest (code_program code.now) (clear_in table.items)) }
{
    let mut table = whole(alloc, code.groups.len())?;
    for _round in 0..=code.groups.len() {
        if is_closed(code, &table) {
            return Ok(table);
        }
        table = narrowed(alloc, code, &table)?;
    }
    // Each round but the last takes a group away, so this cannot happen.
    Err(Memory)
}

/// A table that says that all groups are clear.
fn whole(alloc: Global, count: usize) -> Result<Vec<bool>, Memory>
    ensures { IfOk result (λ table. table.items ≡ replicate count true) }
{
    let mut table = Vec::new(alloc);
    table.resize(count, true)?;
    Ok(table)
}

/// Whether the function at a place, if there is one, has no mark and calls clear groups alone.
fn member_is_clear(functions: &[CodeFun], place: usize, groups: &[bool]) -> bool
    ensures { result ≡ member_clear (clear_in groups.now) (map code_fun_term functions.now) (slice_get (map code_fun_term functions.now) place) }
{
    match functions.get(place) {
        Some(function) => block_is_clear(&function.body, groups),
        None => true,
    }
}

/// Whether the functions at these places are so.
fn members_are_clear(functions: &[CodeFun], places: &[u32], groups: &[bool]) -> bool
    ensures { result ≡ members_clear (clear_in groups.now) (map code_fun_term functions.now) places.now }
{
    for place in places {
        if !member_is_clear(functions, *place as usize, groups) {
            return false;
        }
    }
    true
}

/// Whether the functions of a group are so.
fn group_members_are_clear(code: &Code, group: usize, groups: &[bool]) -> bool
    requires { group < length code.now.groups.items }
    ensures { result ≡ members_clear (clear_in groups.now) (code_program code.now).functions (slice_index_or (code_program code.now).groups group []) }
{
    members_are_clear(&code.functions, &code.groups[group], groups)
}

/// Whether a group is not said to be clear, or has such functions alone.
fn is_closed_at(code: &Code, group: usize, groups: &[bool]) -> bool
    requires { group < length code.now.groups.items }
    ensures { result ≡ (not (clear_in groups.now group)
        || members_clear (clear_in groups.now) (code_program code.now).functions (slice_index_or (code_program code.now).groups group [])) }
{
    if group_is_clear(group, groups) {
        group_members_are_clear(code, group, groups)
    } else {
        true
    }
}

/// Whether a group is said to be clear and has such functions alone.
fn stays_clear(code: &Code, group: usize, groups: &[bool]) -> bool
    requires { group < length code.now.groups.items }
    ensures { result ≡ (clear_in groups.now group
        && members_clear (clear_in groups.now) (code_program code.now).functions (slice_index_or (code_program code.now).groups group [])) }
{
    if group_is_clear(group, groups) {
        group_members_are_clear(code, group, groups)
    } else {
        false
    }
}

/// Whether each group that is said to be clear has such functions alone.
fn is_closed(code: &Code, groups: &[bool]) -> bool
    ensures { result ≡ all_clear (code_program code.now) (clear_in groups.now) }
{
    for group in 0..code.groups.len() {
        if !is_closed_at(code, group, groups) {
            return false;
        }
    }
    true
}

/// The table without the groups that have other functions.
fn narrowed(alloc: Global, code: &Code, groups: &[bool]) -> Result<Vec<bool>, Memory>
    ensures { IfOk result (λ table. table.items ≡ narrowed_groups (clear_in groups.now) (code_program code.now).functions 0 (code_program code.now).groups) }
{
    let mut table = Vec::new(alloc);
    for group in 0..code.groups.len() {
        table.push(stays_clear(code, group, groups))?;
    }
    Ok(table)
}
