//! Single tokens, written one behind the other.
ghost use Rattle.std.specs.Prelude.{◌≡◌, ◌∷◌, codes};
ghost use Rattle.std.specs.Fmt.{signed_decimal};
ghost use Rattle.sac_print.specs.Texts.{one, separator, Prints, comma_before};
ghost use Rattle.sac_print.specs.Operators.{operator_text, builtin_text, is_function, opening, closing};
ghost use Rattle.sac_print.specs.Canonical.{truth_text, bound_sign};

use itoa::Buffer;
use sac_ast::Builtin;
use sac_base::{Memory, Op};

/// What stands behind a token.
fn separator(text: &str) -> u8
    ensures { result ≡ separator text.now }
{
    if text == ";" || text == "{" || text == "}" {
        b'\n'
    } else {
        b' '
    }
}

/// Writes a token.
pub fn put(text: &str, out: &mut Vec<u8>) -> Result<(), Memory>
    ensures { Prints result out.old.items out.new.items (one text.now) }
{
    out.extend_from_slice(text.as_bytes())?;
    out.push(separator(text))?;
    Ok(())
}

/// Writes the comma before the item at a place of a list.
pub fn put_comma(place: usize, out: &mut Vec<u8>) -> Result<(), Memory>
    ensures { Prints result out.old.items out.new.items (comma_before place) }
{
    if place > 0 {
        put(",", out)?;
    }
    Ok(())
}

/// Writes `(` where parentheses are needed.
pub fn open(needed: bool, out: &mut Vec<u8>) -> Result<(), Memory>
    ensures { Prints result out.old.items out.new.items (opening needed) }
{
    if needed {
        put("(", out)?;
    }
    Ok(())
}

/// Writes `)` where parentheses are needed.
pub fn close(needed: bool, out: &mut Vec<u8>) -> Result<(), Memory>
    ensures { Prints result out.old.items out.new.items (closing needed) }
{
    if needed {
        put(")", out)?;
    }
    Ok(())
}

pub fn put_number(n: i32, out: &mut Vec<u8>) -> Result<(), Memory>
    ensures { Prints result out.old.items out.new.items (one (signed_decimal n)) }
{
    let mut buffer = Buffer::new();
    put(buffer.format(n), out)
}

pub fn operator_text(op: Op) -> &'static str
    ensures { result.now ≡ operator_text op }
{
    match op {
        Op::Add => "+",
        Op::Sub | Op::Neg => "-",
        Op::Mul => "*",
        Op::Div => "/",
        Op::Rem => "%",
        Op::Min => "min",
        Op::Max => "max",
        Op::Not => "!",
        Op::Eq => "==",
        Op::Ne => "!=",
        Op::Lt => "<",
        Op::Le => "<=",
        Op::Gt => ">",
        Op::Ge => ">=",
        Op::And => "&&",
        Op::Or => "||",
    }
}

pub fn builtin_text(builtin: Builtin) -> &'static str
    ensures { result.now ≡ builtin_text builtin }
{
    match builtin {
        Builtin::Dim => "dim",
        Builtin::Shape => "shape",
        Builtin::Reshape => "reshape",
    }
}

/// Whether an operator is written as a call.
pub fn is_function(op: Op) -> bool
    ensures { result ≡ is_function op }
{
    matches!(op, Op::Min | Op::Max)
}

pub fn truth_text(b: bool) -> &'static str
    ensures { result.now ≡ truth_text b }
{
    if b { "true" } else { "false" }
}

/// The sign at a bound of a generator.
pub fn bound_sign(closed: bool) -> &'static str
    ensures { result.now ≡ bound_sign closed }
{
    if closed { "<=" } else { "<" }
}
