//! Functions and programs.
ghost use Rattle.std.specs.Prelude.{◌≡◌, IfOk};
ghost use Rattle.sac_ast.specs.View.{function, program};
ghost use Rattle.sac_print.specs.Texts.{Prints};
ghost use Rattle.sac_print.specs.Canonical.{inline_texts, function_texts, canonical};

use crate::lists::{put_params, put_types};
use crate::texts::put;
use crate::tree::{put_list, put_statements};
use sac_ast::{Function, Program};
use sac_base::Memory;
use std::alloc::Global;

fn put_inline(inline: bool, out: &mut Vec<u8>) -> Result<(), Memory>
    ensures { Prints result out.old.items out.new.items (inline_texts inline) }
{
    if inline {
        put("inline", out)?;
    }
    Ok(())
}

fn put_function(f: &Function, out: &mut Vec<u8>) -> Result<(), Memory>
    ensures { Prints result out.old.items out.new.items (function_texts (function f.now)) }
{
    put_inline(f.inline, out)?;
    put_types(&f.results, out)?;
    put(f.name.as_str(), out)?;
    put("(", out)?;
    put_params(&f.params, out)?;
    put(")", out)?;
    put("{", out)?;
    put_statements(&f.body, out)?;
    put("return", out)?;
    put("(", out)?;
    put_list(&f.values, out)?;
    put(")", out)?;
    put(";", out)?;
    put("}", out)
}

/// The canonical text of a program: its tokens in the grammar's order, a line feed behind each of `;`, `{` and `}`, and a space behind every other token.
/// Parentheses stand exactly where the grammar needs them.
///
/// # Errors
///
/// `Memory` where no memory was found.
pub fn print_program(alloc: Global, program: &Program) -> Result<Vec<u8>, Memory>
    ensures { IfOk result (λ text. text.items ≡ canonical (Rattle.sac_ast.specs.View.program program.now)) }
{
    let mut out = Vec::new(alloc);
    for f in &program.functions {
        put_function(f, &mut out)?;
    }
    Ok(out)
}
