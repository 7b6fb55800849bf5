//! Inlining in all functions of a core.

ghost use Rattle.std.specs.Prelude.{◌≡◌, ◌<◌, ℕ, Bool, true, IfOk, OnOk, length};
ghost use Rattle.core_ir.specs.Outcome.{SameOutcome, SameOutside};
ghost use Rattle.core_ir.specs.View.{core_term};
ghost use Rattle.core_ir.specs.WellFormed.{IsWellFormed};
ghost use Rattle.inline_calls.specs.Measures.{AreSizes};
ghost use Rattle.core_forms.specs.inlined_bodies.Functions.{FunctionInlined, ComeTo, OnlyLargeLeft};

use crate::sizes::{Measured, Size, note_size, size_of, sizes_of};
use crate::walk::inline_block;
use core_forms::inlined_bodies::Growth;
use core_ir::Core;
use core_subst::fresh;
use sac_base::Memory;
use std::alloc::Global;
use unreached_functions::empty_unreached;

/// The most bindings that are put into all functions together.
const MOST_IN_ALL: u64 = 1_048_576;

/// Inlines calls of inline functions: each becomes checks of the arguments, the function's body with other variables, and checks of its results.
///
/// The groups, main, and the types of all functions stay. Of a well-formed core the result is well formed and has the same outcome on all arguments and
/// under all limits. A call of a group whose only instance is inline is left in two cases alone: the bindings of both bodies, the instance's parameters
/// and its results are together more than 65,536, or the greatest numbers of variables of both functions are together at least `u32::MAX`. Groups with
/// several instances are left as they are.
///
/// Functions that `main` does not reach lose their bodies first. An inline function calls inline functions before it alone. So the inline functions are
/// gone through from the first to the last, and then the others: a body that is put in has no call left that could be inlined.
///
/// # Errors
///
/// `Memory`, also where more than 1,048,576 bindings would be put into all functions together.
pub fn inline_all(alloc: Global, core: Core) -> Result<Core, Memory>
    ensures outcome { IsWellFormed (core_term core) → IfOk result (λ c. SameOutcome (core_term core) (core_term c)) }
    ensures outside { IfOk result (λ c. SameOutside (core_term core) (core_term c)) }
    ensures well { IsWellFormed (core_term core) → IfOk result (λ c. IsWellFormed (core_term c)) }
    ensures left { IsWellFormed (core_term core) → IfOk result (λ c. OnlyLargeLeft (core_term c)) }
{
    let mut core = empty_unreached(alloc, core)?;
    let mut sizes = sizes_of(alloc, &core)?;
    let mut room = MOST_IN_ALL;
    inline_functions(alloc, &mut core, &mut sizes, true, &mut room)?;
    inline_functions(alloc, &mut core, &mut sizes, false, &mut room)?;
    Ok(core)
}

/// Inlines calls in the functions that are inline, or in those that are not, while there is room for the bindings that are put in.
fn inline_functions(
    alloc: Global,
    core: &mut Core,
    sizes: &mut Vec<Size>,
    inlines: bool,
    room: &mut u64,
) -> Result<(), Memory>
    requires { AreSizes (core_term core.old) sizes.old.items }
    ensures sized { OnOk result (AreSizes (core_term core.new) sizes.new.items) }
    ensures outcome { IsWellFormed (core_term core.old) → OnOk result (SameOutcome (core_term core.old) (core_term core.new)) }
    ensures outside { OnOk result (SameOutside (core_term core.old) (core_term core.new)) }
    ensures well { IsWellFormed (core_term core.old) → OnOk result (IsWellFormed (core_term core.new)) }
    ensures come { IsWellFormed (core_term core.old) → ComeTo (core_term core.old) inlines 0
        → OnOk result (ComeTo (core_term core.new) inlines (length core.new.functions.items)) }
{
    for place in 0..core.functions.len() {
        if core.functions[place].inline == inlines {
            inline_function(alloc, core, sizes, place, room)?;
        }
    }
    Ok(())
}

/// Inlines calls in the function at a place, if there is room for the bindings that are put in.
fn inline_function(
    alloc: Global,
    core: &mut Core,
    sizes: &mut Vec<Size>,
    place: usize,
    room: &mut u64,
) -> Result<(), Memory>
    requires within { place < length core.old.functions.items }
    requires sized { AreSizes (core_term core.old) sizes.old.items }
    ensures sized { OnOk result (AreSizes (core_term core.new) sizes.new.items) }
    ensures inlined { OnOk result (FunctionInlined (core_term core.old) (core_term core.new) place) }
    ensures count { OnOk result (length core.new.functions.items ≡ length core.old.functions.items) }
{
    let Some(new) = fresh(&core.functions[place]) else {
        return Ok(());
    };
    let mut growth = Growth {
        count: 0,
        above: u64::from(new.0),
    };
    let work = Measured::new(core, sizes);
    let body = inline_block(alloc, &work, &mut growth, &core.functions[place].body)?;
    *room = room.checked_sub(growth.count).ok_or(Memory)?;
    core.functions[place].body = body;
    let size = size_of(&core.functions[place]);
    note_size(sizes, place, size);
    Ok(())
}
