//! Names, types and parameters.
ghost use Rattle.std.specs.Prelude.{◌≡◌, [], MatchBool, map, replicate, codes};
ghost use Rattle.std.specs.Fmt.{signed_decimal};
ghost use Rattle.sac_ast.specs.View.{index_view};
ghost use Rattle.sac_print.specs.Texts.{one, commas, Prints};
ghost use Rattle.sac_print.specs.Canonical.{brackets, targets_texts, index_texts, base_text, inside_texts, part_texts, type_texts, param_texts};

use crate::texts::{put, put_comma, put_number};
use sac_ast::{Index, Param, Target};
use sac_base::{ArrayType, Base, Memory, Part};

/// Writes the names of targets with commas between them.
pub fn put_targets(targets: &[Target], out: &mut Vec<u8>) -> Result<(), Memory>
    ensures { Prints result out.old.items out.new.items (targets_texts targets.now) }
{
    for (place, target) in targets.iter().enumerate() {
        put_comma(place, out)?;
        put(target.name.as_str(), out)?;
    }
    Ok(())
}

/// Writes how a generator names its index.
pub fn put_index_names(index: &Index, out: &mut Vec<u8>) -> Result<(), Memory>
    ensures { Prints result out.old.items out.new.items (index_texts (index_view index.now)) }
{
    match index {
        Index::Named(target) => put(target.name.as_str(), out),
        Index::Parts(targets) => {
            put("[", out)?;
            put_targets(targets, out)?;
            put("]", out)
        }
    }
}

fn base_text(base: Base) -> &'static str
    ensures { result.now ≡ base_text base }
{
    match base {
        Base::Int => "int",
        Base::Bool => "bool",
    }
}

fn put_extents(extents: &[i32], out: &mut Vec<u8>) -> Result<(), Memory>
    ensures { Prints result out.old.items out.new.items (commas (map (λ n. one (signed_decimal n)) extents.now)) }
{
    for (place, extent) in extents.iter().enumerate() {
        put_comma(place, out)?;
        put_number(*extent, out)?;
    }
    Ok(())
}

fn put_dots(rank: u32, out: &mut Vec<u8>) -> Result<(), Memory>
    ensures { Prints result out.old.items out.new.items (commas (replicate rank (one (codes ".")))) }
{
    for place in 0..rank {
        put_comma(place as usize, out)?;
        put(".", out)?;
    }
    Ok(())
}

/// Whether a type is written with brackets: all are but those of a known empty shape.
fn has_brackets(part: &Part) -> bool
    ensures { MatchBool result (part_texts part.now ≡ brackets (inside_texts part.now)) (part_texts part.now ≡ []) }
{
    match part {
        Part::Known(shape) => shape.rank() > 0,
        Part::Rank(_) | Part::Plus | Part::Star => true,
    }
}

fn put_part(part: &Part, out: &mut Vec<u8>) -> Result<(), Memory>
    ensures { Prints result out.old.items out.new.items (part_texts part.now) }
{
    if !has_brackets(part) {
        return Ok(());
    }
    put("[", out)?;
    put_inside(part, out)?;
    put("]", out)
}

/// Writes what stands between the brackets of a type.
fn put_inside(part: &Part, out: &mut Vec<u8>) -> Result<(), Memory>
    ensures { Prints result out.old.items out.new.items (inside_texts part.now) }
{
    match part {
        Part::Known(shape) => put_extents(shape.extents(), out),
        Part::Rank(rank) => put_dots(*rank, out),
        Part::Plus => put("+", out),
        Part::Star => put("*", out),
    }
}

fn put_type(ty: &ArrayType, out: &mut Vec<u8>) -> Result<(), Memory>
    ensures { Prints result out.old.items out.new.items (type_texts ty.now) }
{
    put(base_text(ty.base), out)?;
    put_part(&ty.part, out)
}

/// Writes types with commas between them.
pub fn put_types(types: &[ArrayType], out: &mut Vec<u8>) -> Result<(), Memory>
    ensures { Prints result out.old.items out.new.items (commas (map type_texts types.now)) }
{
    for (place, ty) in types.iter().enumerate() {
        put_comma(place, out)?;
        put_type(ty, out)?;
    }
    Ok(())
}

fn put_param(param: &Param, out: &mut Vec<u8>) -> Result<(), Memory>
    ensures { Prints result out.old.items out.new.items (param_texts param.now) }
{
    put_type(&param.ty, out)?;
    put(param.name.as_str(), out)
}

/// Writes parameters with commas between them.
pub fn put_params(params: &[Param], out: &mut Vec<u8>) -> Result<(), Memory>
    ensures { Prints result out.old.items out.new.items (commas (map param_texts params.now)) }
{
    for (place, param) in params.iter().enumerate() {
        put_comma(place, out)?;
        put_param(param, out)?;
    }
    Ok(())
}
