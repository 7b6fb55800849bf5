//! Operands, with sources in the place of copies.

ghost use Rattle.std.specs.Prelude.{◌≡◌, IfOk, map, option_map};
ghost use Rattle.core_subst.specs.Substitution.{core_op_with, parted_op_with};
ghost use Rattle.copy_propagation.specs.Table.{source_in};

use crate::sources::Sources;
use core_ir::{CoreOp, PartedOp, Var};
use sac_base::Memory;
use std::alloc::Global;

pub fn in_vars(alloc: Global, vars: &[Var], sources: &Sources) -> Result<Vec<Var>, Memory>
    ensures { IfOk result (λ v. v.items ≡ map (source_in sources.now) vars.now) }
{
    let mut found = Vec::new(alloc);
    for var in vars {
        found.push(sources.source(*var))?;
    }
    Ok(found)
}

pub fn in_option(var: Option<Var>, sources: &Sources) -> Option<Var>
    ensures { result ≡ option_map (source_in sources.now) var }
{
    match var {
        Some(x) => Some(sources.source(x)),
        None => None,
    }
}

pub fn in_op(op: CoreOp, sources: &Sources) -> CoreOp
    ensures { result ≡ core_op_with (source_in sources.now) op }
{
    match op {
        CoreOp::Genarray { shape, default } => CoreOp::Genarray {
            shape: sources.source(shape),
            default: sources.source(default),
        },
        CoreOp::Modarray { array } => CoreOp::Modarray {
            array: sources.source(array),
        },
        CoreOp::Fold { op, neutral } => CoreOp::Fold {
            op,
            neutral: sources.source(neutral),
        },
    }
}

pub fn in_parted_op(op: PartedOp, sources: &Sources) -> PartedOp
    ensures { result ≡ parted_op_with (source_in sources.now) op }
{
    match op {
        PartedOp::Genarray => PartedOp::Genarray,
        PartedOp::Modarray { array } => PartedOp::Modarray {
            array: sources.source(array),
        },
        PartedOp::Fold { op, neutral } => PartedOp::Fold {
            op,
            neutral: sources.source(neutral),
        },
    }
}
