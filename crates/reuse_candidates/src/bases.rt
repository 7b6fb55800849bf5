//! The bases of variables, in a table that the end of a block takes back.

ghost use Rattle.std.specs.Prelude.{◌≡◌, ◌+◌, ◌-◌, ◌∷◌, IfOk, List, OnOk, map, drop, length};
ghost use Rattle.counted_code.specs.Terms.{core_of_right};
ghost use Rattle.counted_code.specs.View.{code_right_term};
ghost use Rattle.counted_marks.specs.Bases.{BaseFacts, note_base, note_bases, note_ints, op_base};
ghost use Rattle.counted_marks.specs.Bases.{either_base as base_of_either, either_bases as either_of, literal_base as base_of_literal};
ghost use Rattle.core_ir.specs.declared.tree.Var.{Var as Variable};
ghost use Rattle.reuse_candidates.specs.Plain.{base_of_right};
ghost use Rattle.reuse_candidates.specs.Tables.{bases_of};

use core_ir::{CoreOp, Var};
use counted_code::CodeRight;
use fact_table::scoped_table::ScopedTable;
use sac_base::{Base, Memory, result_base};
use std::alloc::Global;

/// The base of each variable where it is known, by the latest note of it.
pub type BaseTable = ScopedTable<Option<Base>>;

/// The base of a variable, where it is known.
pub fn base_at(table: &BaseTable, x: Var) -> Option<Base>
    ensures { result ≡ bases_of table.now x }
{
    match table.get(x) {
        Some(base) => *base,
        None => None,
    }
}

/// The bases of variables.
pub fn bases_at(alloc: Global, table: &BaseTable, vars: &[Var]) -> Result<Vec<Option<Base>>, Memory>
    ensures { IfOk result (λ bases. bases.items ≡ map (bases_of table.now) vars.now) }
{
    let mut bases = Vec::new(alloc);
    for var in vars {
        bases.push(base_at(table, *var))?;
    }
    Ok(bases)
}

/// Notes the bases of variables. Of a variable that comes after all bases none is known.
pub fn learn_bases(
    table: &mut BaseTable,
    vars: &[Var],
    bases: &[Option<Base>],
) -> Result<(), Memory>
    ensures noted { OnOk result (bases_of table.new ≡ note_bases (bases_of table.old) vars.now bases.now) }
    ensures behind { drop (length table.new - length table.old) table.new ≡ table.old }
{
    for k in 0..vars.len() {
        table.note(vars[k], nth_base(bases, k))?;
    }
    Ok(())
}

/// The base at a place, and none behind the last.
fn nth_base(bases: &[Option<Base>], k: usize) -> Option<Base>
    ensures { (g : BaseFacts) (x : Variable) (xs : List Variable) → note_bases (note_base g x result) xs (drop (k + 1) bases.now)
        ≡ note_bases g (x ∷ xs) (drop k bases.now) }
{
    match bases.get(k) {
        Some(base) => *base,
        None => None,
    }
}

/// Notes that each of the variables is of numbers.
pub fn learn_ints(table: &mut BaseTable, vars: &[Var]) -> Result<(), Memory>
    ensures noted { OnOk result (bases_of table.new ≡ note_ints (bases_of table.old) vars.now) }
    ensures behind { drop (length table.new - length table.old) table.new ≡ table.old }
{
    for var in vars {
        table.note(*var, Some(Base::Int))?;
    }
    Ok(())
}

/// What one of two branches tells of the bases of the results.
pub fn either_bases(
    alloc: Global,
    a: &[Option<Base>],
    b: &[Option<Base>],
) -> Result<Vec<Option<Base>>, Memory>
    ensures { IfOk result (λ bases. bases.items ≡ either_of a.now b.now) }
{
    let mut bases = Vec::new(alloc);
    for k in 0..a.len().min(b.len()) {
        bases.push(either_base(a[k], b[k]))?;
    }
    Ok(bases)
}

fn either_base(a: Option<Base>, b: Option<Base>) -> Option<Base>
    ensures { result ≡ base_of_either a b }
{
    match a {
        Some(base) => Some(base),
        None => b,
    }
}

/// The base of what a right side without blocks and calls gives, where it is known.
pub fn plain_base(right: &CodeRight, table: &BaseTable) -> Option<Base>
    ensures { result ≡ base_of_right (core_of_right (code_right_term right.now)) (bases_of table.now) }
{
    match right {
        CodeRight::Const(array) => Some(array.base()),
        CodeRight::Copy(x)
        | CodeRight::Select(x, _)
        | CodeRight::Replace(x, _, _)
        | CodeRight::Reshape(_, x) => base_at(table, *x),
        CodeRight::Unary(op, _) | CodeRight::Binary(op, _, _) => Some(result_base(*op)),
        CodeRight::Literal(xs) => literal_base(xs, table),
        CodeRight::Dim(_) | CodeRight::ShapeOf(_) => Some(Base::Int),
        CodeRight::Check(_, ty) => Some(ty.base),
        CodeRight::Always(_) => None,
        CodeRight::If { .. }
        | CodeRight::Loop { .. }
        | CodeRight::Call { .. }
        | CodeRight::With(_)
        | CodeRight::Parted(_) => None,
    }
}

fn literal_base(vars: &[Var], table: &BaseTable) -> Option<Base>
    ensures { result ≡ base_of_literal vars.now (bases_of table.now) }
{
    match vars.first() {
        Some(first) => base_at(table, *first),
        None => Some(Base::Int),
    }
}

/// The base of what a with-loop of an operation gives, where it is known.
pub fn loop_base(op: CoreOp, table: &BaseTable) -> Option<Base>
    ensures { result ≡ op_base op (bases_of table.now) }
{
    match op {
        CoreOp::Genarray { default, .. } => base_at(table, default),
        CoreOp::Modarray { array } => base_at(table, array),
        CoreOp::Fold { neutral, .. } => base_at(table, neutral),
    }
}
