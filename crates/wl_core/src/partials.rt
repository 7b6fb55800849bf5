//! The workers' partial values of a fold.

ghost use Rattle.std.specs.Prelude.{◌≡◌, ◌<◌, length, IfOk, IfSome, None, Some};
ghost use Rattle.sac_base.specs.Verdict.{present, combined};
ghost use Rattle.wl_core.specs.Machine.{both, combine, listed};
ghost use Rattle.wl_core.specs.Rows.{items_of, partial_of, AddsValue};

use crate::rows::{Rows, combine_into};
use sac_base::{Cell, Memory, Op};
use std::alloc::Global;
use std::marker::Model;

/// A value for each worker that has begun.
#[derive(Debug, Drop)]
pub struct Partials {
    started: Vec<bool>,
    rows: Rows,
}

impl Model for Partials {
    ghost use Rattle.std.specs.Prelude.{◌≡◌, length};
    ghost use Rattle.wl_core.specs.Rows.{PartialsValue};

    ghost Value = { PartialsValue };

    ghost view = { λ partials. record { started = partials.started.items; rows = partials.rows } };

    ghost invariant = { λ partials. length partials.started.items ≡ partials.rows.count };
}

impl Partials {
    pub fn new(alloc: Global, count: usize, width: usize) -> Result<Partials, Memory>
        ensures { IfOk result (λ partials. (partials.rows.width ≡ width) × (partials.rows.count ≡ count) × (partial_of partials ≡ (λ w. None))) }
    {
        let started = vec![in alloc; false; count]?;
        Ok(Partials {
            started,
            rows: Rows::new(alloc, count, width)?,
        })
    }

    /// Combines a worker's value with one more, which is its first where it has none.
    pub fn add(&mut self, worker: usize, op: Op, value: &[Cell])
        requires worker { worker < self.old.rows.count }
        requires width { length value.now ≡ self.old.rows.width }
        ensures { AddsValue self.old self.new worker op value.now }
    {
        if self.started[worker] {
            self.rows.combine(worker, op, value);
        } else {
            self.rows.put(worker, value);
            self.started[worker] = true;
        }
    }

    /// The values of all workers combined, or None where no worker has one.
    pub fn combined(&self, alloc: Global, op: Op) -> Result<Option<Vec<Cell>>, Memory>
        ensures { IfOk result (λ value. items_of value ≡ combined (combine op) (present (listed (partial_of self.now) self.now.rows.count))) }
    {
        let mut whole = None;
        for worker in 0..self.started.len() {
            if self.started[worker] {
                whole = combined_with(alloc, op, whole, self.rows.row(worker))?;
            }
        }
        Ok(whole)
    }
}

// A value that may be missing, combined with another.
fn combined_with(
    alloc: Global,
    op: Op,
    whole: Option<Vec<Cell>>,
    row: &[Cell],
) -> Result<Option<Vec<Cell>>, Memory>
    requires { IfSome whole (λ value. length value.items ≡ length row.now) }
    ensures value { IfOk result (λ now. items_of now ≡ both (combine op) (items_of whole) (Some row.now)) }
    ensures width { IfOk result (λ now. IfSome now (λ value. length value.items ≡ length row.now)) }
{
    match whole {
        None => Ok(Some(row.to_vec(alloc)?)),
        Some(mut value) => {
            combine_into(op, &mut value, row);
            Ok(Some(value))
        }
    }
}
