//! The walk through two blocks side by side. It ends at the first place where they differ.

ghost use Rattle.std.specs.Prelude.{◌≡◌, IsTrue};
ghost use Rattle.counted_code.specs.Pieces.{code_gen_term, code_part_term, gens_term, parts_term};
ghost use Rattle.counted_code.specs.View.{code_term, code_right_term, code_with_term, code_parted_term, step_term, steps_before};
ghost use Rattle.counted_code.specs.declared.tree.CodeStep.TheVariants as step_of;

use crate::heads::{same_gen_head, same_part_head, same_parted_head};
use crate::lists::same_vars;
use crate::plain::same_plain;
use counted_code::{
    CodeBlock, CodeGen, CodeLet, CodePart, CodeParted, CodeRight, CodeStep, CodeWith,
};

/// Whether two blocks are the same code. False says nothing.
#[cycle(same)]
pub fn same_block(a: &CodeBlock, b: &CodeBlock) -> bool
    ensures { IsTrue result → code_term a.now ≡ code_term b.now }
{
    same_vars(&a.results, &b.results) && same_steps(&a.steps, &b.steps)
}

#[cycle(same)]
fn same_steps(a: &[CodeStep], b: &[CodeStep]) -> bool
    ensures { IsTrue result → steps_before a.now ≡ steps_before b.now }
{
    if a.len() != b.len() {
        return false;
    }
    for i in 0..a.len() {
        if !same_step(&a[i], &b[i]) {
            return false;
        }
    }
    true
}

#[cycle(same)]
fn same_step(a: &CodeStep, b: &CodeStep) -> bool
    ensures { IsTrue result → step_term a.now ≡ step_term b.now }
{
    match (a, b) {
        (CodeStep::Bind(x), CodeStep::Bind(y)) => same_let(x, y),
        (CodeStep::Keep(x), CodeStep::Keep(y)) => *x == *y,
        (CodeStep::Release(x), CodeStep::Release(y)) => *x == *y,
        _ => false,
    }
}

#[cycle(same)]
fn same_let(a: &CodeLet, b: &CodeLet) -> bool
    ensures { IsTrue result → step_term (step_of.Bind a.now) ≡ step_term (step_of.Bind b.now) }
{
    a.site == b.site && same_vars(&a.targets, &b.targets) && same_right(&a.right, &b.right)
}

#[cycle(same)]
fn same_right(a: &CodeRight, b: &CodeRight) -> bool
    ensures { IsTrue result → code_right_term a.now ≡ code_right_term b.now }
{
    match (a, b) {
        (CodeRight::With(x), CodeRight::With(y)) => same_with(x, y),
        (CodeRight::Parted(x), CodeRight::Parted(y)) => same_parted(x, y),
        (CodeRight::If { .. }, CodeRight::If { .. }) => same_if(a, b),
        (CodeRight::Loop { .. }, CodeRight::Loop { .. }) => same_loop(a, b),
        _ => same_plain(a, b),
    }
}

#[cycle(same)]
fn same_if(a: &CodeRight, b: &CodeRight) -> bool
    ensures { IsTrue result → code_right_term a.now ≡ code_right_term b.now }
{
    let CodeRight::If { cond, yes, no } = a else {
        return false;
    };
    let CodeRight::If {
        cond: other,
        yes: yes_too,
        no: no_too,
    } = b
    else {
        return false;
    };
    if *cond != *other {
        return false;
    }
    if !same_block(yes, yes_too) {
        return false;
    }
    same_block(no, no_too)
}

#[cycle(same)]
fn same_loop(a: &CodeRight, b: &CodeRight) -> bool
    ensures { IsTrue result → code_right_term a.now ≡ code_right_term b.now }
{
    let CodeRight::Loop {
        first_body,
        start,
        params,
        test,
        body,
        test_site,
    } = a
    else {
        return false;
    };
    let CodeRight::Loop {
        first_body: first_too,
        start: start_too,
        params: params_too,
        test: test_too,
        body: body_too,
        test_site: site_too,
    } = b
    else {
        return false;
    };
    if *first_body != *first_too {
        return false;
    }
    if *test_site != *site_too {
        return false;
    }
    if !same_vars(start, start_too) {
        return false;
    }
    if !same_vars(params, params_too) {
        return false;
    }
    if !same_block(test, test_too) {
        return false;
    }
    same_block(body, body_too)
}

#[cycle(same)]
fn same_with(a: &CodeWith, b: &CodeWith) -> bool
    ensures { IsTrue result → code_with_term a.now ≡ code_with_term b.now }
{
    a.op == b.op && same_gens(&a.gens, &b.gens)
}

#[cycle(same)]
fn same_gens(a: &[CodeGen], b: &[CodeGen]) -> bool
    ensures { IsTrue result → gens_term a.now ≡ gens_term b.now }
{
    if a.len() != b.len() {
        return false;
    }
    for i in 0..a.len() {
        if !same_gen(&a[i], &b[i]) {
            return false;
        }
    }
    true
}

#[cycle(same)]
fn same_gen(a: &CodeGen, b: &CodeGen) -> bool
    ensures { IsTrue result → code_gen_term a.now ≡ code_gen_term b.now }
{
    same_gen_head(a, b) && same_block(&a.body, &b.body)
}

#[cycle(same)]
fn same_parted(a: &CodeParted, b: &CodeParted) -> bool
    ensures { IsTrue result → code_parted_term a.now ≡ code_parted_term b.now }
{
    same_parted_head(a, b) && same_parts(&a.parts, &b.parts)
}

#[cycle(same)]
fn same_parts(a: &[CodePart], b: &[CodePart]) -> bool
    ensures { IsTrue result → parts_term a.now ≡ parts_term b.now }
{
    if a.len() != b.len() {
        return false;
    }
    for i in 0..a.len() {
        if !same_part(&a[i], &b[i]) {
            return false;
        }
    }
    true
}

#[cycle(same)]
fn same_part(a: &CodePart, b: &CodePart) -> bool
    ensures { IsTrue result → code_part_term a.now ≡ code_part_term b.now }
{
    same_part_head(a, b) && same_block(&a.body, &b.body)
}
