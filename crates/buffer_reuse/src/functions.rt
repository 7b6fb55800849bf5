//! Functions and programs.

ghost use Rattle.std.specs.Prelude.{◌≡◌, IfOk, OnOk, Some, map};
ghost use Rattle.counted_code.specs.Counts.{IsUnmarked, IsWellCounted};
ghost use Rattle.counted_code.specs.Prompt.{IsPrompt};
ghost use Rattle.counted_code.specs.Terms.{core_of_code, core_of_fun};
ghost use Rattle.counted_code.specs.View.{code_fun_term, code_program};
ghost use Rattle.counted_marks.specs.Marking.{marking_code, marking_fun};
ghost use Rattle.counted_marks.specs.Marks.{HasNoneLeft, IsWellMarked};
ghost use Rattle.reuse_candidates.specs.Calls.{given_by};

use crate::walk::mark_block;
use counted_code::{Code, CodeFun};
use reuse_candidates::{Calls, Scope, calls_of};
use sac_base::Memory;
use std::alloc::Global;

/// The program in which each parted loop that may take over an array is marked with it, in the place of the array's release; where there are several, with
/// that of the least number. All else stays.
///
/// A loop may take over an array where its cells are scalars and its result has a buffer, the array has the result's base and known shape and is released
/// before the next binding, and the cells use it in selections at their own index alone. Source: Scholz, Single Assignment C, JFP 2003.
///
/// # Errors
///
/// `Memory`: there is none for the program.
pub fn mark_reuse(alloc: Global, code: Code) -> Result<Code, Memory>
    ensures marked { IfOk result (λ marked. code_program marked ≡ marking_code (code_program code)) }
    ensures counted { IsWellCounted (code_program code) → IfOk result (λ marked. IsWellCounted (code_program marked)) }
    ensures prompt { IsPrompt (code_program code) → IfOk result (λ marked. IsPrompt (code_program marked)) }
    ensures well { IsUnmarked (code_program code) → IfOk result (λ marked. IsWellMarked (code_program marked)) }
    ensures none_left { IsUnmarked (code_program code) → IfOk result (λ marked. HasNoneLeft (code_program marked)) }
    ensures same { IfOk result (λ marked. core_of_code (code_program marked) ≡ core_of_code (code_program code)) }
{
    mark_code(alloc, code)
}

fn mark_code(alloc: Global, code: Code) -> Result<Code, Memory>
    ensures { IfOk result (λ marked. code_program marked ≡ marking_code (code_program code)) }
{
    let calls = calls_of(alloc, &code)?;
    Ok(Code {
        functions: mark_functions(alloc, code.functions, &calls)?,
        ..code
    })
}

fn mark_functions(
    alloc: Global,
    functions: Vec<CodeFun>,
    calls: &Calls,
) -> Result<Vec<CodeFun>, Memory>
    ensures { IfOk result (λ marked. map code_fun_term marked.items ≡ map (λ f. marking_fun (given_by calls.now) (code_fun_term f)) functions.items) }
{
    let mut marked = Vec::new(alloc);
    for function in functions {
        marked.push(mark_function(alloc, function, calls)?)?;
    }
    Ok(marked)
}

fn mark_function(alloc: Global, function: CodeFun, calls: &Calls) -> Result<CodeFun, Memory>
    ensures { IfOk result (λ marked. code_fun_term marked ≡ marking_fun (given_by calls.now) (code_fun_term function)) }
{
    let mut scope = Scope::new(alloc);
    scope.enter_function(&function.params)?;
    let marked = mark_block(alloc, &function.body, calls, &mut scope)?;
    Ok(CodeFun {
        body: marked.block,
        ..function
    })
}
