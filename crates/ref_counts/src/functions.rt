//! Functions and programs.

ghost use Rattle.std.specs.Prelude.{◌≡◌, IfOk, map};
ghost use Rattle.core_ir.specs.declared.tree.Var.{Var};
ghost use Rattle.sac_base.specs.declared.types.ArrayType.{ArrayType};
ghost use Rattle.core_ir.specs.View.{block_term, fun_term, core_term};
ghost use Rattle.core_ir.specs.WellFormed.{IsWellFormed};
ghost use Rattle.counted_code.specs.Counts.{IsWellCounted, IsUnmarked};
ghost use Rattle.counted_code.specs.Prompt.{IsPrompt};
ghost use Rattle.counted_code.specs.Terms.{core_of_code};
ghost use Rattle.counted_code.specs.View.{code_term, code_fun_term, code_program};
ghost use Rattle.ref_counts.specs.Placements.{RunsAsTheCore, RunsLeaveNothing};
ghost use Rattle.counted_laws.specs.placing.Placing.{placing, placing_fun, placing_core};

use crate::place::place_block;
use crate::uses::uses_of;
use core_ir::{Block, Core, CoreFun, Var};
use counted_code::{Code, CodeBlock, CodeFun};
use sac_base::{ArrayType, Memory};
use std::alloc::Global;

/// The program with steps that keep and release references: each reference is handed on or released at its last use, and one is added only where the
/// next step hands it on.
pub fn count_refs(alloc: Global, core: Core) -> Result<Code, Memory>
    ensures placed { IfOk result (λ code. code_program code ≡ placing_core (core_term core)) }
    ensures counted { IsWellFormed (core_term core) → IfOk result (λ code. IsWellCounted (code_program code)) }
    ensures prompt { IsWellFormed (core_term core) → IfOk result (λ code. IsPrompt (code_program code)) }
    ensures unmarked { IfOk result (λ code. IsUnmarked (code_program code)) }
    ensures same { IfOk result (λ code. core_of_code (code_program code) ≡ core_term core) }
    ensures outcome { IsWellFormed (core_term core) → RunsAsTheCore (core_term core) result }
    ensures nothing_left { IsWellFormed (core_term core) → RunsLeaveNothing result }
{
    place_core(alloc, core)
}

fn place_core(alloc: Global, core: Core) -> Result<Code, Memory>
    ensures { IfOk result (λ code. code_program code ≡ placing_core (core_term core)) }
{
    let Core {
        functions,
        groups,
        main,
    } = core;
    Ok(Code {
        functions: place_functions(alloc, functions)?,
        groups,
        main,
    })
}

fn place_functions(alloc: Global, functions: Vec<CoreFun>) -> Result<Vec<CodeFun>, Memory>
    ensures { IfOk result (λ placed. map code_fun_term placed.items ≡ map (λ f. placing_fun (fun_term f)) functions.items) }
{
    let mut placed = Vec::new(alloc);
    for function in functions {
        placed.push(place_function(alloc, function)?)?;
    }
    Ok(placed)
}

fn place_function(alloc: Global, function: CoreFun) -> Result<CodeFun, Memory>
    ensures { IfOk result (λ placed. code_fun_term placed ≡ placing_fun (fun_term function)) }
{
    let CoreFun {
        name,
        site,
        params,
        results,
        inline,
        body,
        ends,
    } = function;
    let body = place_body(alloc, &params, &body)?;
    Ok(CodeFun {
        name,
        site,
        params,
        results,
        inline,
        body,
        ends,
    })
}

// The body has the references of the function's arguments.
fn place_body(alloc: Global, params: &[(Var, ArrayType)], body: &Block) -> Result<CodeBlock, Memory>
    ensures { IfOk result (λ c. code_term c ≡ placing (map (λ (p : Var × ArrayType). p.0) params.now) (block_term body.now)) }
{
    let own = param_vars(alloc, params)?;
    let uses = uses_of(alloc, body)?;
    place_block(alloc, body, &uses, 0, &own)
}

fn param_vars(alloc: Global, params: &[(Var, ArrayType)]) -> Result<Vec<Var>, Memory>
    ensures { IfOk result (λ v. v.items ≡ map (λ (p : Var × ArrayType). p.0) params.now) }
{
    let mut vars = Vec::new(alloc);
    for (var, _) in params {
        vars.push(*var)?;
    }
    Ok(vars)
}
