//! Whether blocks have no mark and call clear groups alone.

ghost use Rattle.std.specs.Prelude.{◌≡◌, is_some};
ghost use Rattle.std.specs.List.{list_all};
ghost use Rattle.counted_code.specs.View.{code_term, code_right_term, code_with_term, code_parted_term};
ghost use Rattle.counted_code.specs.declared.tree.CodeParted.{out-CodeParted};
ghost use Rattle.reach_checks.specs.Clear.{is_clear as block_clear, right_is_clear as right_clear, gens_are_clear as gens_clear};
ghost use Rattle.reach_checks.specs.Clear.{parts_are_clear as parts_clear, step_is_clear as step_clear};
ghost use Rattle.reach_checks.specs.Groups.{clear_in};
ghost use Rattle.counted_code.specs.Pieces.{gens_term, parts_term};

use counted_code::{CodeBlock, CodeGen, CodePart, CodeParted, CodeRight, CodeStep, CodeWith};

/// Whether the table says that a group is clear. Of groups behind its end there are no functions.
pub fn group_is_clear(group: usize, groups: &[bool]) -> bool
    ensures { result ≡ clear_in groups.now group }
{
    match groups.get(group) {
        Some(clear) => *clear,
        None => true,
    }
}

/// Whether no loop of a block is marked, and all groups that it calls are clear.
#[cycle(walk)]
pub fn block_is_clear(block: &CodeBlock, groups: &[bool]) -> bool
    ensures { result ≡ block_clear (clear_in groups.now) (code_term block.now) }
{
    steps_are_clear(&block.steps, groups)
}

#[cycle(walk)]
fn steps_are_clear(steps: &[CodeStep], groups: &[bool]) -> bool
    ensures { result ≡ list_all (step_clear (clear_in groups.now)) steps.now }
{
    for step in steps {
        if !step_is_clear(step, groups) {
            return false;
        }
    }
    true
}

#[cycle(walk)]
fn step_is_clear(step: &CodeStep, groups: &[bool]) -> bool
    ensures { result ≡ step_clear (clear_in groups.now) step.now }
{
    match step {
        CodeStep::Bind(binding) => right_is_clear(&binding.right, groups),
        CodeStep::Keep(_) => true,
        CodeStep::Release(_) => true,
    }
}

#[cycle(walk)]
fn right_is_clear(right: &CodeRight, groups: &[bool]) -> bool
    ensures { result ≡ right_clear (clear_in groups.now) (code_right_term right.now) }
{
    match right {
        CodeRight::If { yes, no, .. } => block_is_clear(yes, groups) && block_is_clear(no, groups),
        CodeRight::Loop { test, body, .. } => block_is_clear(test, groups)
            && block_is_clear(body, groups),
        CodeRight::Call { group, .. } => group_is_clear(*group as usize, groups),
        CodeRight::With(with) => with_is_clear(with, groups),
        CodeRight::Parted(parted) => parted_is_clear(parted, groups),
        _ => true,
    }
}

#[cycle(walk)]
fn with_is_clear(with: &CodeWith, groups: &[bool]) -> bool
    ensures { result ≡ right_clear (clear_in groups.now) (code_with_term with.now) }
{
    gens_are_clear(&with.gens, groups)
}

#[cycle(walk)]
fn parted_is_clear(parted: &CodeParted, groups: &[bool]) -> bool
    ensures { result ≡ right_clear (clear_in groups.now) (code_parted_term parted.now) }
{
    if is_marked(parted) {
        return false;
    }
    parts_are_clear(&parted.parts, groups)
}

fn is_marked(parted: &CodeParted) -> bool
    ensures { result ≡ is_some (out-CodeParted parted.now).reuse }
{
    parted.reuse.is_some()
}

/// The same of the blocks of generators.
#[cycle(walk)]
pub fn gens_are_clear(gens: &[CodeGen], groups: &[bool]) -> bool
    ensures { result ≡ gens_clear (clear_in groups.now) (gens_term gens.now) }
{
    for generator in gens {
        if !block_is_clear(&generator.body, groups) {
            return false;
        }
    }
    true
}

/// The same of the blocks of parts.
#[cycle(walk)]
pub fn parts_are_clear(parts: &[CodePart], groups: &[bool]) -> bool
    ensures { result ≡ parts_clear (clear_in groups.now) (parts_term parts.now) }
{
    for part in parts {
        if !block_is_clear(&part.body, groups) {
            return false;
        }
    }
    true
}
