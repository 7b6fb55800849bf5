//! The bases that the functions of a core take and give.

ghost use Rattle.std.specs.Prelude.{◌≡◌, map, IfOk, IfSome, IfNone, OnOk, true, false};
ghost use Rattle.core_ir.specs.Outcome.{param_types};
ghost use Rattle.core_ir.specs.View.{core_term, fun_term};
ghost use Rattle.core_ir.specs.WellFormed.{bases};
ghost use Rattle.variable_bases.specs.Instances.{HasInstances, HasPlaces, OnlyInstances, OnlyPlaces, AddsPlace};
ghost use Rattle.variable_bases.specs.Table.{AllGive, Fits, GroupGives, NoneGives, NoneTakes, SomeGives};

use crate::table::BaseTable;
use core_ir::{Core, CoreFun, Var};
use sac_base::{ArrayType, Base, Memory, same_base};
use std::alloc::Global;

/// The bases that an instance takes and gives.
#[derive(Drop)]
struct Signature {
    takes: Vec<Base>,
    gives: Vec<Base>,
}

/// For each group the bases that its instances take and give.
#[derive(Drop)]
pub struct Signatures {
    groups: Vec<Vec<Signature>>,
}

impl Signatures {
    /// Those of a core.
    ///
    /// # Errors
    ///
    /// `Memory`: there is none for them.
    pub fn of_core(alloc: Global, core: &Core) -> Result<Signatures, Memory>
        ensures has { IfOk result (λ signatures. HasInstances signatures (core_term core.now)) }
        ensures only { IfOk result (λ signatures. OnlyInstances signatures (core_term core.now)) }
    {
        let mut groups = Vec::new(alloc);
        for places in &core.groups {
            groups.push(group_signatures(alloc, &core.functions, places)?)?;
        }
        Ok(Signatures { groups })
    }

    /// What each instance of a group gives that may take the variables, if there is one and all give the same.
    pub(crate) fn given(&self, group: u32, args: &[Var], table: &BaseTable) -> Option<&[Base]>
        ensures some { IfSome result (λ gives. GroupGives self.now group args.now table.now gives.now) }
        ensures none { IfNone result (NoneGives self.now group args.now table.now) }
    {
        let signatures = self.groups.get(group as usize)?;
        let first = first_fit(signatures, args, table)?;
        if all_give(signatures, args, table, &first.gives) {
            Some(&first.gives)
        } else {
            None
        }
    }
}

/// The first instance that may take the variables.
fn first_fit<'a>(
    signatures: &'a [Signature],
    args: &[Var],
    table: &BaseTable,
) -> Option<&'a Signature>
    ensures fits { IfSome result (λ one. Fits signatures.now args.now table.now one.now) }
    ensures none { IfNone result (NoneTakes signatures.now args.now table.now) }
{
    for signature in signatures {
        if table.may_have(args, &signature.takes) {
            return Some(signature);
        }
    }
    None
}

/// Whether each instance that may take the variables gives these.
fn all_give(signatures: &[Signature], args: &[Var], table: &BaseTable, gives: &[Base]) -> bool
    ensures all { result ≡ true → AllGive signatures.now args.now table.now gives.now }
    ensures some { result ≡ false → SomeGives signatures.now args.now table.now gives.now }
{
    for signature in signatures {
        if table.may_have(args, &signature.takes) && !same_bases(&signature.gives, gives) {
            return false;
        }
    }
    true
}

fn same_bases(a: &[Base], b: &[Base]) -> bool
    ensures same { result ≡ true → a.now ≡ b.now }
    ensures other { result ≡ false → a.now ≡ b.now → ⊥ }
{
    if a.len() != b.len() {
        return false;
    }
    for k in 0..a.len().min(b.len()) {
        if !same_base(a[k], b[k]) {
            return false;
        }
    }
    true
}

fn group_signatures(
    alloc: Global,
    functions: &[CoreFun],
    places: &[u32],
) -> Result<Vec<Signature>, Memory>
    ensures has { IfOk result (λ signatures. HasPlaces (map fun_term functions.now) places.now signatures.items) }
    ensures only { IfOk result (λ signatures. OnlyPlaces (map fun_term functions.now) places.now signatures.items) }
{
    let mut signatures = Vec::new(alloc);
    for place in places {
        add_signature(alloc, functions, *place, &mut signatures)?;
    }
    Ok(signatures)
}

fn add_signature(
    alloc: Global,
    functions: &[CoreFun],
    place: u32,
    signatures: &mut Vec<Signature>,
) -> Result<(), Memory>
    ensures { OnOk result (AddsPlace (map fun_term functions.now) place signatures.old.items signatures.new.items) }
{
    if let Some(function) = functions.get(place as usize) {
        signatures.push(signature_of(alloc, function)?)?;
    }
    Ok(())
}

fn signature_of(alloc: Global, function: &CoreFun) -> Result<Signature, Memory>
    ensures takes { IfOk result (λ one. one.takes.items ≡ bases (param_types (fun_term function.now))) }
    ensures gives { IfOk result (λ one. one.gives.items ≡ bases (fun_term function.now).results) }
{
    Ok(Signature {
        takes: taken(alloc, &function.params)?,
        gives: given(alloc, &function.results)?,
    })
}

fn taken(alloc: Global, params: &[(Var, ArrayType)]) -> Result<Vec<Base>, Memory>
    ensures { IfOk result (λ taken. taken.items ≡ bases (map (λ p. p.1) params.now)) }
{
    let mut taken = Vec::new(alloc);
    for (_, ty) in params {
        taken.push(ty.base)?;
    }
    Ok(taken)
}

fn given(alloc: Global, types: &[ArrayType]) -> Result<Vec<Base>, Memory>
    ensures { IfOk result (λ given. given.items ≡ bases types.now) }
{
    let mut given = Vec::new(alloc);
    for ty in types {
        given.push(ty.base)?;
    }
    Ok(given)
}
