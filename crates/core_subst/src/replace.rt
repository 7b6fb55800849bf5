//! Other variables in the place of free ones.

ghost use Rattle.std.specs.Prelude.{◌≡◌, [], ◌∷◌, ◌++◌, IfOk, OnOk, map, option_map, take, length, eqb, cond, unwrap_or};
ghost use Rattle.std.specs.Ordering.{nat_cmp};
ghost use Rattle.std.specs.BTreeMap.{get};
ghost use Rattle.core_ir.specs.declared.tree.Var.{Var};
ghost use Rattle.core_ir.specs.View.{block_term, right_term, with_term, gen_term, parted_term, part_term};
ghost use Rattle.core_ir.specs.Binders.{is_in, NoneIn, bound_in};
ghost use Rattle.core_subst.specs.Substitution.{partner, partner_at, image, below, seconds, MeansThrough, core_op_with, parted_op_with, substituted};
ghost use Rattle.core_subst.specs.Substitution.{substituted_right, substituted_gen, substituted_part};

use core_ir::{Block, CoreGen, CoreOp, CorePart, Let, PartedLoop, PartedOp, Right, Var, WithLoop};
use sac_base::Memory;
use std::alloc::Global;
use std::collections::BTreeMap;

/// Replaces free uses: each first member of a pair by its second. Of two pairs with one first member the first counts.
///
/// No second member is bound in the block, so that none is captured. The new block means under an environment what the old one means where the first
/// members have the values of the second.
pub fn substitute(alloc: Global, block: Block, pairs: &[(Var, Var)]) -> Result<Block, Memory>
    requires { NoneIn (seconds pairs.now) (bound_in (block_term block)) }
    ensures term { IfOk result (λ b. block_term b ≡ substituted (partner pairs.now) (block_term block)) }
    ensures law { IfOk result (λ b. MeansThrough pairs.now (block_term block) (block_term b)) }
{
    let partners = partners_of(alloc, pairs)?;
    let mut hidden = Vec::new(alloc);
    in_block(alloc, block, &partners, &mut hidden)
}

/// The second members by the numbers of the first.
fn partners_of(alloc: Global, pairs: &[(Var, Var)]) -> Result<BTreeMap<u32, Var>, Memory>
    ensures { IfOk result (λ partners. (x : Var) → partner_at partners x ≡ partner pairs.now x) }
{
    let mut partners = BTreeMap::new(alloc);
    for (from, to) in pairs {
        add_pair(&mut partners, *from, *to)?;
    }
    Ok(partners)
}

/// Adds a pair, unless there is one with its first member.
fn add_pair(partners: &mut BTreeMap<u32, Var>, from: Var, to: Var) -> Result<(), Memory>
    ensures { OnOk result ((x z : Var) → unwrap_or (get nat_cmp partners.new x.0) z ≡ unwrap_or (get nat_cmp partners.old x.0) (cond (eqb from.0 x.0) to z)) }
{
    partners.entry(from.0)?.or_insert(to);
    Ok(())
}

/// Replaces free uses in a block, where the hidden variables stay.
#[cycle(substitute)]
fn in_block(
    alloc: Global,
    block: Block,
    partners: &BTreeMap<u32, Var>,
    hidden: &mut Vec<Var>,
) -> Result<Block, Memory>
    ensures replaced { IfOk result (λ b. block_term b ≡ substituted (image partners.now hidden.old.items) (block_term block)) }
    ensures hidden { OnOk result (hidden.new.items ≡ hidden.old.items) }
{
    let Block { lets, results } = block;
    let outer = hidden.len();
    let mut replaced = Vec::new(alloc);
    for binding in lets {
        let Let {
            targets,
            site,
            right,
        } = binding;
        let right = in_right(alloc, right, partners, hidden)?;
        let binding = Let {
            targets,
            site,
            right,
        };
        place(&mut replaced, binding, partners, hidden)?;
    }
    let results = in_vars(alloc, &results, partners, hidden)?;
    hidden.truncate(outer);
    Ok(Block {
        lets: replaced,
        results,
    })
}

/// Adds a binding, whose targets are hidden behind it.
fn place(
    replaced: &mut Vec<Let>,
    binding: Let,
    partners: &BTreeMap<u32, Var>,
    hidden: &mut Vec<Var>,
) -> Result<(), Memory>
    ensures placed { OnOk result (replaced.new.items ≡ replaced.old.items ++ (binding ∷ [])) }
    ensures outer { OnOk result (take (length hidden.old.items) hidden.new.items ≡ hidden.old.items) }
    ensures below { OnOk result (image partners.now hidden.new.items ≡ below binding.targets.items (image partners.now hidden.old.items)) }
{
    let targets_hidden = hide(partners, hidden, &binding.targets);
    replaced.push(binding)?;
    targets_hidden?;
    Ok(())
}

#[cycle(substitute)]
fn in_right(
    alloc: Global,
    right: Right,
    partners: &BTreeMap<u32, Var>,
    hidden: &mut Vec<Var>,
) -> Result<Right, Memory>
    ensures replaced { IfOk result (λ r. right_term r ≡ substituted_right (image partners.now hidden.old.items) (right_term right)) }
    ensures hidden { OnOk result (hidden.new.items ≡ hidden.old.items) }
{
    match right {
        Right::Const(a) => Ok(Right::Const(a)),
        Right::Copy(x) => Ok(Right::Copy(image_of(partners, hidden, x))),
        Right::Unary(op, x) => Ok(Right::Unary(op, image_of(partners, hidden, x))),
        Right::Binary(op, x, y) => Ok(Right::Binary(
            op,
            image_of(partners, hidden, x),
            image_of(partners, hidden, y),
        )),
        Right::Literal(xs) => Ok(Right::Literal(in_vars(alloc, &xs, partners, hidden)?)),
        Right::Dim(x) => Ok(Right::Dim(image_of(partners, hidden, x))),
        Right::ShapeOf(x) => Ok(Right::ShapeOf(image_of(partners, hidden, x))),
        Right::Reshape(x, y) => Ok(Right::Reshape(
            image_of(partners, hidden, x),
            image_of(partners, hidden, y),
        )),
        Right::Select(x, y) => Ok(Right::Select(
            image_of(partners, hidden, x),
            image_of(partners, hidden, y),
        )),
        Right::Replace(x, y, z) => Ok(Right::Replace(
            image_of(partners, hidden, x),
            image_of(partners, hidden, y),
            image_of(partners, hidden, z),
        )),
        Right::If { cond, yes, no } => Ok(Right::If {
            cond: image_of(partners, hidden, cond),
            yes: in_block(alloc, yes, partners, hidden)?,
            no: in_block(alloc, no, partners, hidden)?,
        }),
        Right::Loop {
            first_body,
            start,
            params,
            test,
            body,
            test_site,
        } => {
            let outer = hidden.len();
            let start = in_vars(alloc, &start, partners, hidden)?;
            hide(partners, hidden, &params)?;
            let test = in_block(alloc, test, partners, hidden)?;
            let body = in_block(alloc, body, partners, hidden)?;
            hidden.truncate(outer);
            Ok(Right::Loop {
                first_body,
                start,
                params,
                test,
                body,
                test_site,
            })
        }
        Right::Call { group, args } => Ok(Right::Call {
            group,
            args: in_vars(alloc, &args, partners, hidden)?,
        }),
        Right::With(w) => Ok(Right::With(in_with(alloc, w, partners, hidden)?)),
        Right::Parted(p) => Ok(Right::Parted(in_parted(alloc, p, partners, hidden)?)),
        Right::Always(kind) => Ok(Right::Always(kind)),
        Right::Check(x, t) => Ok(Right::Check(image_of(partners, hidden, x), t)),
    }
}

#[cycle(substitute)]
fn in_with(
    alloc: Global,
    with: WithLoop,
    partners: &BTreeMap<u32, Var>,
    hidden: &mut Vec<Var>,
) -> Result<WithLoop, Memory>
    ensures replaced { IfOk result (λ w. with_term w ≡ substituted_right (image partners.now hidden.old.items) (with_term with)) }
    ensures hidden { OnOk result (hidden.new.items ≡ hidden.old.items) }
{
    let WithLoop { gens, op } = with;
    let mut replaced = Vec::new(alloc);
    for generator in gens {
        replaced.push(in_gen(alloc, generator, partners, hidden)?)?;
    }
    Ok(WithLoop {
        gens: replaced,
        op: in_op(op, partners, hidden),
    })
}

#[cycle(substitute)]
fn in_gen(
    alloc: Global,
    generator: CoreGen,
    partners: &BTreeMap<u32, Var>,
    hidden: &mut Vec<Var>,
) -> Result<CoreGen, Memory>
    ensures replaced { IfOk result (λ g. gen_term g ≡ substituted_gen (image partners.now hidden.old.items) (gen_term generator)) }
    ensures hidden { OnOk result (hidden.new.items ≡ hidden.old.items) }
{
    let outer = hidden.len();
    let lower = in_option(generator.lower, partners, hidden);
    let upper = in_option(generator.upper, partners, hidden);
    let step = in_option(generator.step, partners, hidden);
    let width = in_option(generator.width, partners, hidden);
    hide_index(partners, hidden, generator.index, &generator.names)?;
    let body = in_block(alloc, generator.body, partners, hidden)?;
    hidden.truncate(outer);
    Ok(CoreGen {
        lower,
        lower_closed: generator.lower_closed,
        upper,
        upper_closed: generator.upper_closed,
        step,
        width,
        index: generator.index,
        names: generator.names,
        body,
        site: generator.site,
    })
}

#[cycle(substitute)]
fn in_parted(
    alloc: Global,
    parted: PartedLoop,
    partners: &BTreeMap<u32, Var>,
    hidden: &mut Vec<Var>,
) -> Result<PartedLoop, Memory>
    ensures replaced { IfOk result (λ p. parted_term p ≡ substituted_right (image partners.now hidden.old.items) (parted_term parted)) }
    ensures hidden { OnOk result (hidden.new.items ≡ hidden.old.items) }
{
    let PartedLoop {
        frame,
        base,
        cell,
        op,
        parts,
    } = parted;
    let mut replaced = Vec::new(alloc);
    for part in parts {
        replaced.push(in_part(alloc, part, partners, hidden)?)?;
    }
    Ok(PartedLoop {
        frame,
        base,
        cell,
        op: in_parted_op(op, partners, hidden),
        parts: replaced,
    })
}

#[cycle(substitute)]
fn in_part(
    alloc: Global,
    part: CorePart,
    partners: &BTreeMap<u32, Var>,
    hidden: &mut Vec<Var>,
) -> Result<CorePart, Memory>
    ensures replaced { IfOk result (λ p. part_term p ≡ substituted_part (image partners.now hidden.old.items) (part_term part)) }
    ensures hidden { OnOk result (hidden.new.items ≡ hidden.old.items) }
{
    let outer = hidden.len();
    hide_one(partners, hidden, part.index)?;
    let body = in_block(alloc, part.body, partners, hidden)?;
    hidden.truncate(outer);
    Ok(CorePart {
        grid: part.grid,
        index: part.index,
        body,
        site: part.site,
    })
}

fn in_op(op: CoreOp, partners: &BTreeMap<u32, Var>, hidden: &[Var]) -> CoreOp
    ensures { result ≡ core_op_with (image partners.now hidden.now) op }
{
    match op {
        CoreOp::Genarray { shape, default } => CoreOp::Genarray {
            shape: image_of(partners, hidden, shape),
            default: image_of(partners, hidden, default),
        },
        CoreOp::Modarray { array } => CoreOp::Modarray {
            array: image_of(partners, hidden, array),
        },
        CoreOp::Fold { op, neutral } => CoreOp::Fold {
            op,
            neutral: image_of(partners, hidden, neutral),
        },
    }
}

fn in_parted_op(op: PartedOp, partners: &BTreeMap<u32, Var>, hidden: &[Var]) -> PartedOp
    ensures { result ≡ parted_op_with (image partners.now hidden.now) op }
{
    match op {
        PartedOp::Genarray => PartedOp::Genarray,
        PartedOp::Modarray { array } => PartedOp::Modarray {
            array: image_of(partners, hidden, array),
        },
        PartedOp::Fold { op, neutral } => PartedOp::Fold {
            op,
            neutral: image_of(partners, hidden, neutral),
        },
    }
}

fn in_option(var: Option<Var>, partners: &BTreeMap<u32, Var>, hidden: &[Var]) -> Option<Var>
    ensures { result ≡ option_map (image partners.now hidden.now) var }
{
    match var {
        Some(x) => Some(image_of(partners, hidden, x)),
        None => None,
    }
}

/// Hides a variable too. Only one that would be replaced takes a place.
fn hide_one(partners: &BTreeMap<u32, Var>, hidden: &mut Vec<Var>, var: Var) -> Result<(), Memory>
    ensures outer { OnOk result (take (length hidden.old.items) hidden.new.items ≡ hidden.old.items) }
    ensures below { OnOk result (image partners.now hidden.new.items ≡ below (var ∷ []) (image partners.now hidden.old.items)) }
{
    if image_of(partners, hidden, var).0 != var.0 {
        hidden.push(var)?;
    }
    Ok(())
}

/// Hides these variables too.
fn hide(partners: &BTreeMap<u32, Var>, hidden: &mut Vec<Var>, vars: &[Var]) -> Result<(), Memory>
    ensures outer { OnOk result (take (length hidden.old.items) hidden.new.items ≡ hidden.old.items) }
    ensures below { OnOk result (image partners.now hidden.new.items ≡ below vars.now (image partners.now hidden.old.items)) }
{
    for var in vars {
        hide_one(partners, hidden, *var)?;
    }
    Ok(())
}

/// Hides the variables that a generator's body sees as its index.
fn hide_index(
    partners: &BTreeMap<u32, Var>,
    hidden: &mut Vec<Var>,
    index: Var,
    names: &[Var],
) -> Result<(), Memory>
    ensures outer { OnOk result (take (length hidden.old.items) hidden.new.items ≡ hidden.old.items) }
    ensures below { OnOk result (image partners.now hidden.new.items ≡ below (index ∷ names.now) (image partners.now hidden.old.items)) }
{
    hide_one(partners, hidden, index)?;
    hide(partners, hidden, names)
}

fn in_vars(
    alloc: Global,
    vars: &[Var],
    partners: &BTreeMap<u32, Var>,
    hidden: &[Var],
) -> Result<Vec<Var>, Memory>
    ensures { IfOk result (λ v. v.items ≡ map (image partners.now hidden.now) vars.now) }
{
    let mut images = Vec::new(alloc);
    for var in vars {
        images.push(image_of(partners, hidden, *var))?;
    }
    Ok(images)
}

/// What stands for a variable: its partner, or itself where it has none or is hidden.
fn image_of(partners: &BTreeMap<u32, Var>, hidden: &[Var], x: Var) -> Var
    ensures { result ≡ image partners.now hidden.now x }
{
    match partners.get(&x.0) {
        Some(partner) => { if contains(hidden, x) { x } else { *partner } }
        None => x,
    }
}

fn contains(vars: &[Var], x: Var) -> bool
    ensures { result ≡ is_in x vars.now }
{
    for var in vars {
        if var.0 == x.0 {
            return true;
        }
    }
    false
}
