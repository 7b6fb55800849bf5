//! The results of kernels as values.

ghost use Rattle.std.specs.Prelude.{◌≡◌, IfOk, IfSome, List, map};
ghost use Rattle.counted_code.specs.Values.{Small};
ghost use Rattle.kernel_code.specs.Relations.{array_of};
ghost use Rattle.run_kernels.specs.Scopes.{AreHeld};
ghost use Rattle.run_values.specs.Shown.{value_of};
ghost use Rattle.sac_base.specs.Arrays.{ArrayValue};

use kernel_tree::{Held, Registers};
use run_values::RunValue;
use sac_base::Memory;
use std::alloc::Global;

/// Whether all that is held are scalars.
pub fn are_words(results: &[Held]) -> bool {
    for held in results {
        if !is_word(*held) {
            return false;
        }
    }
    true
}

fn is_word(held: Held) -> bool {
    matches!(held, Held::Word(_, _) | Held::Number(_, _))
}

/// The scalars that are held. None where something else is.
pub fn word_values(
    alloc: Global,
    results: &[Held],
    registers: &Registers,
) -> Result<Option<Vec<RunValue>>, Memory>
    ensures { (bs : List ArrayValue) → IfOk result (λ o. IfSome o (λ vs. AreHeld bs registers.now results.now vs.items)) }
{
    let mut values = Vec::new(alloc);
    for held in results {
        let Some(value) = word_value(*held, registers) else {
            return Ok(None);
        };
        values.push(value)?;
    }
    Ok(Some(values))
}

// The scalar that is held.
fn word_value(held: Held, registers: &Registers) -> Option<RunValue>
    ensures { (bs : List ArrayValue) → IfSome result (λ v. value_of v ≡ Small (array_of registers.now bs held)) }
{
    match held {
        Held::Word(base, k) => Some(RunValue::Word(base, registers[k as usize])),
        Held::Number(base, n) => Some(RunValue::Word(base, n)),
        _ => None,
    }
}
