//! The arguments of `main`.
ghost use Rattle.std.specs.Prelude.{◌≡◌, ◌≤◌, map, IfOk};
ghost use Rattle.sac_ast.specs.declared.Param.{Param as ParamOf};
ghost use Rattle.sac_ast.specs.View.{program as tree};
ghost use Rattle.data_text.specs.Texts.{text_value};
ghost use Rattle.data_text.specs.Generated.{generated_all};
ghost use Rattle.data_text.specs.Found.{Tells};
ghost use Rattle.sac_base.specs.Arrays.{form_of};
ghost use Rattle.sac_build.specs.Arguments.{AreArrays};
ghost use Rattle.sac_due.specs.Input.{main_types, main_bases};
ghost use Rattle.sac_top.specs.Steps.{HasBases};

use data_text::{DataError, generate, read_arrays};
use sac_ast::{Param, Program};
use sac_base::{Array, ArrayType, Form, Memory, copy_type};
use std::alloc::Global;
use type_check::Checked;

fn types_of(alloc: Global, params: &[Param]) -> Result<Vec<ArrayType>, Memory>
    ensures { IfOk result (λ types. types.items ≡ map (λ (p : ParamOf). p.ty) params.now) }
{
    let mut types = Vec::new(alloc);
    for param in params {
        types.push(copy_type(&param.ty))?;
    }
    Ok(types)
}

// The types of the parameters of `main`.
fn main_types(alloc: Global, program: &Program) -> Result<Vec<ArrayType>, Memory>
    ensures { IfOk result (λ types. types.items ≡ main_types (tree program.now)) }
{
    match program.main() {
        Some(main) => types_of(alloc, &main.params),
        None => Ok(Vec::new(alloc)),
    }
}

/// The arguments that a text gives.
pub fn read_arguments(
    alloc: Global,
    checked: &Checked,
    text: &[u8],
) -> Result<Vec<Array>, DataError>
    requires { HasBases checked.now }
    ensures exact { Tells result (text_value text.now (main_bases (tree checked.now.program))) }
    ensures arrays { IfOk result (λ args. AreArrays args.items) }
{
    read_arrays(alloc, text, checked.main_bases())
}

/// The arguments that are generated from a number.
pub fn generate_arguments(alloc: Global, program: &Program, n: u32) -> Result<Vec<Array>, DataError>
    requires { (1 ≤ n) × (n ≤ 4096) }
    ensures exact { Tells result (generated_all (main_types (tree program.now)) 0 n) }
    ensures arrays { IfOk result (λ args. AreArrays args.items) }
{
    let types = main_types(alloc, program)?;
    generate(alloc, &types, n)
}

/// The forms of arguments.
pub fn forms_of(alloc: Global, args: &[Array]) -> Result<Vec<Form>, Memory>
    ensures { IfOk result (λ forms. forms.items ≡ map form_of args.now) }
{
    let mut forms = Vec::new(alloc);
    for array in args {
        forms.push(array.form())?;
    }
    Ok(forms)
}
