//! What the bindings of a block tell of the bases of its variables.

ghost use Rattle.std.specs.Prelude.{◌≡◌, All, OnOk, IfSome, IfNone};
ghost use Rattle.core_ir.specs.View.{block_term, right_term, with_term, gen_term, parted_term, part_term};
ghost use Rattle.variable_bases.specs.Learned.{LearnsBlock, LearnsRight, LearnsGens, LearnsGen, LearnsParts, LearnsPart};
ghost use Rattle.variable_bases.specs.Learned.{TellsRight, TellsLiteral, TellsNothing, gens_in, parts_in};
ghost use Rattle.variable_bases.specs.Sources.{source as source_of};
ghost use Rattle.variable_bases.specs.Table.{IsTold};

use crate::signatures::Signatures;
use crate::table::BaseTable;
use core_ir::{Block, CoreGen, CoreOp, CorePart, PartedLoop, Right, Var, WithLoop};
use sac_base::{Base, Memory, result_base};

/// The table learns the bases of what a block binds.
#[cycle(learning)]
pub fn learn_block(
    block: &Block,
    signatures: &Signatures,
    table: &mut BaseTable,
) -> Result<(), Memory>
    ensures { OnOk result (LearnsBlock signatures.now table.old table.new (block_term block.now)) }
{
    for binding in &block.lets {
        learn_right(&binding.targets, &binding.right, signatures, table)?;
    }
    Ok(())
}

/// The table learns the bases of targets, and of what their right side binds.
#[cycle(learning)]
fn learn_right(
    targets: &[Var],
    right: &Right,
    signatures: &Signatures,
    table: &mut BaseTable,
) -> Result<(), Memory>
    ensures { OnOk result (LearnsRight signatures.now table.old table.new targets.now (right_term right.now)) }
{
    match right {
        Right::If { yes, no, .. } => {
            learn_block(yes, signatures, table)?;
            learn_block(no, signatures, table)?;
            table.take_each(targets, &yes.results)?;
            table.take_each(targets, &no.results)
        }
        Right::Loop {
            start,
            params,
            test,
            body,
            ..
        } => {
            table.take_each(params, start)?;
            learn_block(test, signatures, table)?;
            learn_block(body, signatures, table)?;
            table.take_each(targets, start)
        }
        Right::Call { group, args } => match signatures.given(*group, args, table) {
            Some(gives) => table.note_each(targets, gives),
            None => Ok(()),
        },
        Right::With(w) => {
            learn_with(w, signatures, table)?;
            table.take_each(targets, &[source(w.op)])
        }
        Right::Parted(p) => {
            learn_parted(p, signatures, table)?;
            table.note_each(targets, &[p.base])
        }
        plain => match plain_base(plain, table) {
            Some(base) => table.note_each(targets, &[base]),
            None => Ok(()),
        },
    }
}

/// The variable whose base the result of a with-loop has.
fn source(op: CoreOp) -> Var
    ensures { result ≡ source_of op }
{
    match op {
        CoreOp::Genarray { default, .. } => default,
        CoreOp::Modarray { array } => array,
        CoreOp::Fold { neutral, .. } => neutral,
    }
}

#[cycle(learning)]
fn learn_with(with: &WithLoop, signatures: &Signatures, table: &mut BaseTable) -> Result<(), Memory>
    ensures { OnOk result (LearnsGens signatures.now table.old table.new (gens_in (with_term with.now))) }
{
    for generator in &with.gens {
        learn_generator(generator, signatures, table)?;
    }
    Ok(())
}

#[cycle(learning)]
fn learn_generator(
    generator: &CoreGen,
    signatures: &Signatures,
    table: &mut BaseTable,
) -> Result<(), Memory>
    ensures { OnOk result (LearnsGen signatures.now table.old table.new (gen_term generator.now)) }
{
    table.note_numbers(&[generator.index])?;
    table.note_numbers(&generator.names)?;
    learn_block(&generator.body, signatures, table)
}

#[cycle(learning)]
fn learn_parted(
    parted: &PartedLoop,
    signatures: &Signatures,
    table: &mut BaseTable,
) -> Result<(), Memory>
    ensures { OnOk result (LearnsParts signatures.now table.old table.new (parts_in (parted_term parted.now))) }
{
    for part in &parted.parts {
        learn_part(part, signatures, table)?;
    }
    Ok(())
}

#[cycle(learning)]
fn learn_part(part: &CorePart, signatures: &Signatures, table: &mut BaseTable) -> Result<(), Memory>
    ensures { OnOk result (LearnsPart signatures.now table.old table.new (part_term part.now)) }
{
    table.note_numbers(&[part.index])?;
    learn_block(&part.body, signatures, table)
}

/// The base that a right side without blocks and calls gives, if it can be told.
fn plain_base(right: &Right, table: &BaseTable) -> Option<Base>
    ensures some { IfSome result (λ base. TellsRight table.now (right_term right.now) base) }
    ensures none { IfNone result (TellsNothing table.now (right_term right.now)) }
{
    match right {
        Right::Const(array) => Some(array.base()),
        Right::Copy(x) => table.of(*x),
        Right::Reshape(_, array) => table.of(*array),
        Right::Select(array, _) => table.of(*array),
        Right::Replace(array, _, _) => table.of(*array),
        Right::Unary(op, _) => Some(result_base(*op)),
        Right::Binary(op, _, _) => Some(result_base(*op)),
        Right::Literal(xs) => literal_base(xs, table),
        Right::Dim(_) => Some(Base::Int),
        Right::ShapeOf(_) => Some(Base::Int),
        Right::Check(_, ty) => Some(ty.base),
        _ => None,
    }
}

/// The base of the elements of a literal. An empty one is of numbers.
fn literal_base(xs: &[Var], table: &BaseTable) -> Option<Base>
    ensures some { IfSome result (λ base. TellsLiteral table.now xs.now base) }
    ensures none { IfNone result (All (IsTold table.now) xs.now → ⊥) }
{
    if xs.is_empty() {
        return Some(Base::Int);
    }
    for x in xs {
        if let Some(base) = table.of(*x) {
            return Some(base);
        }
    }
    None
}
