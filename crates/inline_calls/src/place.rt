//! A function's body in the place of a call.

ghost use Rattle.std.specs.Prelude.{◌≡◌, ◌+◌, ◌≤◌, ◌^◌, ◌++◌, [], ◌∷◌, IfOk, OnOk, map};
ghost use Rattle.core_ir.specs.Terms.{Plain, Check};
ghost use Rattle.core_ir.specs.View.{block_term, fun_term, let_term};
ghost use Rattle.core_subst.specs.Names.{above_function};
ghost use Rattle.core_subst.specs.copy.Mapped.{raised_within};
ghost use Rattle.core_forms.specs.inlining.Inlined.{bindings, checks};
ghost use Rattle.inline_calls.specs.Placed.{StandFor};

use core_ir::{Block, CoreFun, Let, Right, Var};
use core_subst::copy::{copy_raised, raise};
use sac_base::{ArrayType, Memory, Site, copy_type};
use std::alloc::Global;

/// The bindings that stand in the place of a call of a function: checks of the arguments at the call's site, the function's body with variables that are
/// greater by `by`, and checks of its results at the function's end, bound to the call's targets.
///
/// The numbers so raised are numbers of 32 bits.
pub fn inlined_bindings(
    alloc: Global,
    function: &CoreFun,
    by: u32,
    targets: &[Var],
    site: Site,
    args: &[Var],
) -> Result<Vec<Let>, Memory>
    requires { above_function (fun_term function.now) + by ≤ 2 ^ 32 }
    ensures { IfOk result (λ lets. StandFor by (fun_term function.now) targets.now site args.now (map let_term lets.items)) }
{
    let params = raised_params(alloc, &function.params, by)?;
    let types = types_of(alloc, &function.params)?;
    let body = copy_raised(alloc, &function.body, by)?;
    let mut lets = Vec::new(alloc);
    push_checks(alloc, &mut lets, site, &params, &types, args)?;
    let results = push_body(&mut lets, body)?;
    push_checks(
        alloc,
        &mut lets,
        function.ends,
        targets,
        &function.results,
        &results,
    )?;
    Ok(lets)
}

/// Pushes the bindings of a block, and gives its results.
fn push_body(lets: &mut Vec<Let>, body: Block) -> Result<Vec<Var>, Memory>
    ensures lets { OnOk result (map let_term lets.new.items ≡ map let_term lets.old.items ++ bindings (block_term body)) }
    ensures results { IfOk result (λ xs. xs.items ≡ Rattle.core_forms.specs.inlining.Inlined.results (block_term body)) }
{
    let Block {
        lets: mut inner,
        results,
    } = body;
    lets.append(&mut inner)?;
    Ok(results)
}

/// Pushes a check of each source in the type beside it, bound to the target beside it.
fn push_checks(
    alloc: Global,
    lets: &mut Vec<Let>,
    site: Site,
    targets: &[Var],
    types: &[ArrayType],
    sources: &[Var],
) -> Result<(), Memory>
    ensures { OnOk result (map let_term lets.new.items ≡ map let_term lets.old.items ++ checks site targets.now types.now sources.now) }
{
    let count = targets.len().min(types.len()).min(sources.len());
    for k in 0..count {
        let binding = check(alloc, targets[k], site, sources[k], &types[k])?;
        lets.push(binding)?;
    }
    Ok(())
}

fn check(alloc: Global, target: Var, site: Site, source: Var, ty: &ArrayType) -> Result<Let, Memory>
    ensures { IfOk result (λ l. let_term l ≡ record { targets = target ∷ []; site = site; right = Plain (Check source ty.now) }) }
{
    let mut targets = Vec::new(alloc);
    targets.push(target)?;
    Ok(Let {
        targets,
        site,
        right: Right::Check(source, copy_type(ty)),
    })
}

/// The raised parameters.
fn raised_params(alloc: Global, params: &[(Var, ArrayType)], by: u32) -> Result<Vec<Var>, Memory>
    ensures { IfOk result (λ xs. xs.items ≡ map (λ p. raised_within by p.0) params.now) }
{
    let mut vars = Vec::new(alloc);
    for (var, _) in params {
        vars.push(raise(*var, by))?;
    }
    Ok(vars)
}

/// The types of the parameters.
fn types_of(alloc: Global, params: &[(Var, ArrayType)]) -> Result<Vec<ArrayType>, Memory>
    ensures { IfOk result (λ types. types.items ≡ map (λ p. p.1) params.now) }
{
    let mut types = Vec::new(alloc);
    for (_, ty) in params {
        types.push(copy_type(ty))?;
    }
    Ok(types)
}
