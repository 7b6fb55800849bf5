//! Variables that are used, as the set of their numbers.

ghost use Rattle.std.specs.Prelude.{◌≡◌, ◌++◌, ◌&&◌, IfOk, OnOk, option_to_list};
ghost use Rattle.removal_rules.specs.Uses.{used_of, among, either, is_not_used};

use core_ir::Var;
use sac_base::Memory;
use std::alloc::Global;
use std::collections::BTreeSet;

/// The set of these variables.
pub fn set_of(alloc: Global, vars: &[Var]) -> Result<BTreeSet<u32>, Memory>
    ensures { IfOk result (λ used. used_of used ≡ among vars.now) }
{
    let mut used = BTreeSet::new(alloc);
    add_all(&mut used, vars)?;
    Ok(used)
}

/// These variables are used too.
pub fn add_all(used: &mut BTreeSet<u32>, vars: &[Var]) -> Result<(), Memory>
    ensures { OnOk result (used_of used.new ≡ either (used_of used.old) (among vars.now)) }
{
    for var in vars {
        used.insert(var.0)?;
    }
    Ok(())
}

/// The operands of a generator are used too.
pub fn add_head(
    used: &mut BTreeSet<u32>,
    lower: Option<Var>,
    upper: Option<Var>,
    step: Option<Var>,
    width: Option<Var>,
) -> Result<(), Memory>
    ensures { OnOk result (used_of used.new ≡ either (used_of used.old)
        (among (option_to_list lower ++ (option_to_list upper ++ (option_to_list step ++ option_to_list width))))) }
{
    add_option(used, lower)?;
    add_option(used, upper)?;
    add_option(used, step)?;
    add_option(used, width)
}

fn add_option(used: &mut BTreeSet<u32>, var: Option<Var>) -> Result<(), Memory>
    ensures { OnOk result (used_of used.new ≡ either (used_of used.old) (among (option_to_list var))) }
{
    match var {
        Some(x) => add_all(used, &[x]),
        None => Ok(()),
    }
}

/// Those of both. The smaller set is put into the greater one.
pub fn united(a: BTreeSet<u32>, b: BTreeSet<u32>) -> Result<BTreeSet<u32>, Memory>
    ensures { IfOk result (λ both. used_of both ≡ either (used_of a) (used_of b)) }
{
    if a.len() < b.len() {
        appended(b, a)
    } else {
        appended(a, b)
    }
}

fn appended(more: BTreeSet<u32>, few: BTreeSet<u32>) -> Result<BTreeSet<u32>, Memory>
    ensures first { IfOk result (λ both. used_of both ≡ either (used_of more) (used_of few)) }
    ensures last { IfOk result (λ both. used_of both ≡ either (used_of few) (used_of more)) }
{
    let mut both = more;
    let mut rest = few;
    both.append(&mut rest)?;
    Ok(both)
}

/// Whether a binding is needless: it may go, and has one variable alone, which is not used behind it.
pub fn is_needless(may_go: bool, targets: &[Var], used: &BTreeSet<u32>) -> bool
    ensures { result ≡ (may_go && is_not_used targets.now (used_of used.now)) }
{
    may_go && are_unused(targets, used)
}

// The only variable is not used.
fn are_unused(vars: &[Var], used: &BTreeSet<u32>) -> bool
    ensures { result ≡ is_not_used vars.now (used_of used.now) }
{
    vars.len() == 1 && !used.contains(&vars[0].0)
}
