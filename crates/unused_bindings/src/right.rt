//! Right sides of swept blocks, generators and parts.

ghost use Rattle.std.specs.Prelude.{◌≡◌, [], ◌∷◌, false, IfOk, map};
ghost use Rattle.core_ir.specs.Scopes.{right_uses};
ghost use Rattle.core_ir.specs.Terms.{RightTerm, gens_of, parts_of};
ghost use Rattle.core_ir.specs.View.{block_term, right_term};
ghost use Rattle.core_facts.specs.Facts.{common_facts as common, known_shape, parted_shape as shape_of_parts, shape_fact};
ghost use Rattle.core_subst.specs.Names.{used_in_right};
ghost use Rattle.core_forms.specs.cleaning.Unused.{is_removable};
ghost use Rattle.fact_table.specs.Table.{fact_of, facts_of};
ghost use Rattle.plain_facts.specs.Rights.{fact_of_right};
ghost use Rattle.unused_bindings.specs.Passed.{gen_terms, part_terms};

use crate::swept::{SweptBlock, SweptGen, SweptPart, SweptRight};
use core_ir::{CoreOp, PartedLoop, PartedOp, Right, Var, WithLoop};
use fact_table::{FactTable, Known};
use plain_facts::{common_facts, parted_shape, plain_fact};
use removal_rules::{add_all, has_value, set_of, united};
use sac_base::{Base, Grid, Memory, Shape, Site};
use std::alloc::Global;

/// A right side without blocks and calls.
pub fn plain(alloc: Global, right: Right, table: &FactTable) -> Result<SweptRight, Memory>
    requires { used_in_right (right_term right) ≡ right_uses (right_term right) }
    ensures right { IfOk result (λ new. right_term new.right ≡ right_term right) }
    ensures known { IfOk result (λ new. map fact_of new.values.items ≡ fact_of_right (right_term right) (facts_of table.now) ∷ []) }
    ensures value { IfOk result (λ new. new.has_value ≡ is_removable (right_term right) (facts_of table.now)) }
{
    let used = set_of(alloc, right.operands().as_slice())?;
    let known = plain_fact(alloc, &right, table)?;
    let has_value = has_value(&right, &known.shape, table);
    let mut values = Vec::new(alloc);
    values.push(known)?;
    Ok(SweptRight {
        right,
        used,
        values,
        has_value,
    })
}

/// A call whose results are known to be like this.
pub fn call(
    alloc: Global,
    group: u32,
    args: Vec<Var>,
    values: Vec<Known>,
) -> Result<SweptRight, Memory>
    ensures right { IfOk result (λ new. right_term new.right ≡ RightTerm.Call group args.items) }
    ensures known { IfOk result (λ new. new.values ≡ values) }
    ensures value { IfOk result (λ new. new.has_value ≡ false) }
{
    let used = set_of(alloc, &args)?;
    Ok(SweptRight {
        right: Right::Call { group, args },
        used,
        values,
        has_value: false,
    })
}

pub fn conditional(
    alloc: Global,
    cond: Var,
    yes: SweptBlock,
    no: SweptBlock,
) -> Result<SweptRight, Memory>
    ensures right { IfOk result (λ new. right_term new.right ≡ RightTerm.If cond (block_term yes.block) (block_term no.block)) }
    ensures known { IfOk result (λ new. map fact_of new.values.items ≡ common (map fact_of yes.results.items) (map fact_of no.results.items)) }
    ensures value { IfOk result (λ new. new.has_value ≡ false) }
{
    let values = common_facts(alloc, &yes.results, &no.results)?;
    let mut used = united(yes.used, no.used)?;
    add_all(&mut used, &[cond])?;
    Ok(SweptRight {
        right: Right::If {
            cond,
            yes: yes.block,
            no: no.block,
        },
        used,
        values,
        has_value: false,
    })
}

pub fn repeated(
    first_body: bool,
    start: Vec<Var>,
    params: Vec<Var>,
    test: SweptBlock,
    body: SweptBlock,
    test_site: Site,
    values: Vec<Known>,
) -> Result<SweptRight, Memory>
    ensures right { IfOk result (λ new. right_term new.right
        ≡ RightTerm.Loop first_body start.items params.items (block_term test.block) (block_term body.block) test_site) }
    ensures known { IfOk result (λ new. new.values ≡ values) }
    ensures value { IfOk result (λ new. new.has_value ≡ false) }
{
    let mut used = united(test.used, body.used)?;
    add_all(&mut used, &start)?;
    Ok(SweptRight {
        right: Right::Loop {
            first_body,
            start,
            params,
            test: test.block,
            body: body.block,
            test_site,
        },
        used,
        values,
        has_value: false,
    })
}

/// A with-loop over generators. Nothing is known of its value.
pub fn with_loop(alloc: Global, op: CoreOp, swept: Vec<SweptGen>) -> Result<SweptRight, Memory>
    ensures right { IfOk result (λ new. right_term new.right ≡ RightTerm.With op (gens_of (gen_terms swept.items))) }
    ensures known { IfOk result (λ new. map fact_of new.values.items ≡ []) }
    ensures value { IfOk result (λ new. new.has_value ≡ false) }
{
    let mut used = set_of(alloc, op.operands().as_slice())?;
    let mut gens = Vec::new(alloc);
    for generator in swept {
        used = united(used, generator.used)?;
        gens.push(generator.generator)?;
    }
    Ok(SweptRight {
        right: Right::With(WithLoop { gens, op }),
        used,
        values: Vec::new(alloc),
        has_value: false,
    })
}

/// A parted loop of parts.
pub fn parted_loop(
    alloc: Global,
    frame: Grid,
    base: Base,
    cell: Shape,
    op: PartedOp,
    swept: Vec<SweptPart>,
) -> Result<SweptRight, Memory>
    ensures right { IfOk result (λ new. right_term new.right ≡ RightTerm.Parted frame base cell op (parts_of (part_terms swept.items))) }
    ensures known { IfOk result (λ new. map fact_of new.values.items ≡ shape_fact (known_shape (shape_of_parts frame cell op)) ∷ []) }
    ensures value { IfOk result (λ new. new.has_value ≡ false) }
{
    let mut used = set_of(alloc, op.operands().as_slice())?;
    let mut parts = Vec::new(alloc);
    for part in swept {
        used = united(used, part.used)?;
        parts.push(part.part)?;
    }
    let mut values = Vec::new(alloc);
    values.push(Known::of_shape(parted_shape(alloc, &frame, &cell, op)))?;
    Ok(SweptRight {
        right: Right::Parted(PartedLoop {
            frame,
            base,
            cell,
            op,
            parts,
        }),
        used,
        values,
        has_value: false,
    })
}
