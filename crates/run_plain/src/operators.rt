//! Operators and literals, in the value itself where the operands are small.

ghost use Rattle.std.specs.Prelude.{◌≡◌, Ok, IfSome, map};
ghost use Rattle.counted_code.specs.Values.{Heap as MachineHeap, Small, read};
ghost use Rattle.run_store.specs.Stands.{Stands, TellsPlaced, lender_of};
ghost use Rattle.run_plain.specs.Reads.{binary_in, literal_in};
ghost use Rattle.run_values.specs.Scopes.{current};
ghost use Rattle.run_values.specs.Shown.{value_of};
ghost use Rattle.run_store.specs.declared.store.Store.{Store as StoreOf};
ghost use Rattle.sac_base.specs.declared.base.Base.{Base as BaseOf};
ghost use Rattle.run_values.specs.Numbers.{numbers};
ghost use Rattle.sac_base.specs.declared.site.Site.{Site as SiteOf};
ghost use Rattle.sac_base.specs.Arrays.{scalar, vector};
ghost use Rattle.sac_base.specs.Operators.{binary as binary_arrays, unary as unary_arrays};
ghost use Rattle.sac_base.specs.Outcomes.{at_site};

use crate::arrays::{binary_array, literal_array, unary_array};
use core_ir::Var;
use run_store::{Store, place_result};
use run_values::{Few, Frames, RunValue, short_binary, short_unary};
use sac_base::{
    Base, Cell, FaultKind, Op, Site, Stop, ZeroDivisor, apply1, apply2, fault, result_base,
    same_base,
};
use shared_strips::Strips;
use std::alloc::Global;

/// An operator of one operand.
pub fn unary_value(
    alloc: Global,
    heap: &mut Store<'_>,
    op: Op,
    a: RunValue,
) -> Result<RunValue, Stop>
    ensures told { (m : MachineHeap) → Stands heap.old m → TellsPlaced result heap.new m (Ok (unary_arrays op (read m (value_of a)))) }
    ensures lender { lender_of heap.new ≡ lender_of heap.old }
{
    match a {
        RunValue::Word(_, n) => Ok(RunValue::Word(result_base(op), apply1(op, n))),
        RunValue::Short(_, few) => Ok(RunValue::Short(result_base(op), short_unary(op, &few))),
        _ => {
            let answer = unary_array(alloc, heap, op, a);
            place_result(heap, answer)
        }
    }
}

/// An operator of two operands, whose elements `strips` computes where they are many.
pub fn binary_value<S: Strips>(
    alloc: Global,
    heap: &mut Store<'_>,
    op: Op,
    a: RunValue,
    b: RunValue,
    site: Site,
    strips: &S,
) -> Result<RunValue, Stop>
    ensures told { (m : MachineHeap) → Stands heap.old m → TellsPlaced result heap.new m (binary_in m op a b site) }
    ensures lender { lender_of heap.new ≡ lender_of heap.old }
{
    match (a, b) {
        (RunValue::Word(_, x), RunValue::Word(_, y)) => word_binary(op, x, y, site),
        _ => wide_binary(alloc, heap, op, a, b, site, strips),
    }
}

// An operator of operands that are not both scalars.
#[inline(never)]
fn wide_binary<S: Strips>(
    alloc: Global,
    heap: &mut Store<'_>,
    op: Op,
    a: RunValue,
    b: RunValue,
    site: Site,
    strips: &S,
) -> Result<RunValue, Stop>
    ensures told { (m : MachineHeap) → Stands heap.old m → TellsPlaced result heap.new m (binary_in m op a b site) }
    ensures lender { lender_of heap.new ≡ lender_of heap.old }
{
    match (a, b) {
        (RunValue::Short(_, x), RunValue::Short(_, y)) => few_binary(op, &x, &y, site),
        (RunValue::Short(_, x), RunValue::Word(_, y)) => few_binary(op, &x, &all(y, &x), site),
        (RunValue::Word(_, x), RunValue::Short(_, y)) => few_binary(op, &all(x, &y), &y, site),
        _ => {
            let answer = binary_array(alloc, heap, op, a, b, site, strips);
            place_result(heap, answer)
        }
    }
}

#[inline(always)]
fn word_binary(op: Op, x: Cell, y: Cell, site: Site) -> Result<RunValue, Stop>
    ensures { (h : StoreOf) (m : MachineHeap) → Stands h m → (s t : BaseOf)
        → TellsPlaced result h m (at_site site (binary_arrays op (scalar s x) (scalar t y))) }
{
    match apply2(op, x, y) {
        Ok(value) => Ok(RunValue::Word(result_base(op), value)),
        Err(ZeroDivisor) => Err(fault(FaultKind::F2, site)),
    }
}

#[inline(never)]
fn few_binary(op: Op, x: &Few, y: &Few, site: Site) -> Result<RunValue, Stop>
    ensures { (h : StoreOf) (m : MachineHeap) → Stands h m → (s t : BaseOf)
        → TellsPlaced result h m (at_site site (binary_arrays op (vector s (numbers x.now)) (vector t (numbers y.now)))) }
{
    match short_binary(op, x, y) {
        Ok(few) => Ok(RunValue::Short(result_base(op), few)),
        Err(kind) => Err(fault(kind, site)),
    }
}

// The number in each place that another list has.
#[inline(never)]
fn all(n: Cell, other: &Few) -> Few
    ensures { numbers result ≡ map (λ _. n) (numbers other.now) }
{
    let mut out = Few::empty();
    for _other in other.as_slice() {
        out.push(n);
    }
    out
}

/// An array literal.
#[inline(never)]
pub fn literal_value(
    alloc: Global,
    heap: &mut Store<'_>,
    frames: &Frames<'_>,
    xs: &[Var],
    site: Site,
) -> Result<RunValue, Stop>
    ensures told { (m : MachineHeap) → Stands heap.old m → TellsPlaced result heap.new m (literal_in m (current frames.now) xs.now site) }
    ensures lender { lender_of heap.new ≡ lender_of heap.old }
{
    match words(frames, xs) {
        Some(value) => Ok(value),
        None => {
            let answer = literal_array(alloc, heap, frames, xs, site);
            place_result(heap, answer)
        }
    }
}

// The vector of words of one base, of which there are at most 8.
fn words(frames: &Frames<'_>, xs: &[Var]) -> Option<RunValue>
    ensures { (h : StoreOf) (m : MachineHeap) → Stands h m → (s : SiteOf)
        → IfSome result (λ v. TellsPlaced (Ok v) h m (literal_in m (current frames.now) xs.now s)) }
{
    let Some(first) = xs.first() else {
        return Some(RunValue::Short(Base::Int, Few::empty()));
    };
    let base = frames.get(*first).base();
    let mut few = Few::empty();
    for x in xs {
        let RunValue::Word(of, n) = frames.get(*x) else {
            return None;
        };
        if !same_base(base, of) || !few.push(n) {
            return None;
        }
    }
    Some(RunValue::Short(base, few))
}
