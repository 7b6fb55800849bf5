//! Blocks, calls and loops.

ghost use Rattle.counted_code.specs.Machine.{first_value, repeat_does, turns_do};
ghost use Rattle.counted_code.specs.Outcome.{function_does};
ghost use Rattle.counted_code.specs.Values.{Heap as MachineHeap, then_go};
ghost use Rattle.counted_code.specs.View.{code_term, code_right_term, code_fun_term};
ghost use Rattle.run_loops.specs.Running.{calls_in, does_in, right_in, turn_in, test_in, IsAt, Told, ToldSteps, IsValue, IsFirst, IsOnly, Appends};
ghost use Rattle.run_loops.specs.Running.{SameScopes, SameOuter, EndsScope, truth_of};
ghost use Rattle.run_store.specs.Stands.{lender_of};
ghost use Rattle.run_values.specs.Scopes.{current};
ghost use Rattle.run_values.specs.Shown.{value_of};
ghost use Rattle.std.specs.Prelude.{◌≡◌, ◌∷◌, [], OnOk, map};

use crate::array_loops::{run_parted, run_with};
use crate::plain::right_value;
use crate::updates::update_first;
use counted_code::{CodeBlock, CodeFun, CodeLet, CodeRight, CodeStep};
use run_kernels::{call_values, loop_values};
use run_loops::{
    Context, Outside, Phases, State, Turn, bind_all, bind_params, condition, deeper, first_of,
    levels_of, push_values, value_at,
};
use run_plain::scalar_value;
use run_store::{keep, release};
use run_types::{all_have, choose};
use run_values::RunValue;
use sac_base::{FaultKind, Memory, Site, Stop, fault};

/// Runs the steps of a block in the scope that is open.
#[cycle(run)]
fn run_steps<P: Phases>(
    steps: &[CodeStep],
    context: &Context<'_>,
    outside: Option<&Outside<P>>,
    state: &mut State<'_, '_>,
) -> Result<(), Stop>
    ensures told { (m : MachineHeap) → IsAt state.old m → ToldSteps context.now steps.now state.old state.new m result }
    ensures scopes { OnOk result (SameOuter state.old.frames state.new.frames) }
    ensures lender { lender_of state.new.heap ≡ lender_of state.old.heap }
{
    let mut next = 0;
    while next < steps.len() {
        let made = update_first(&steps[next..], state)?;
        if made > 0 {
            next += made;
        } else {
            run_step(&steps[next], context, outside, state)?;
            next += 1;
        }
    }
    Ok(())
}

/// Runs a step.
#[cycle(run)]
fn run_step<P: Phases>(
    step: &CodeStep,
    context: &Context<'_>,
    outside: Option<&Outside<P>>,
    state: &mut State<'_, '_>,
) -> Result<(), Stop>
    ensures told { (m : MachineHeap) → IsAt state.old m → ToldSteps context.now (step.now ∷ []) state.old state.new m result }
    ensures scopes { OnOk result (SameOuter state.old.frames state.new.frames) }
    ensures lender { lender_of state.new.heap ≡ lender_of state.old.heap }
{
    match step {
        CodeStep::Bind(binding) => run_let(binding, context, outside, state),
        CodeStep::Keep(x) => Ok(keep(&mut state.heap, state.frames.get(*x))?),
        CodeStep::Release(x) => Ok(release(&mut state.heap, state.frames.get(*x))?),
    }
}

/// Runs a binding.
#[cycle(run)]
fn run_let<P: Phases>(
    binding: &CodeLet,
    context: &Context<'_>,
    outside: Option<&Outside<P>>,
    state: &mut State<'_, '_>,
) -> Result<(), Stop>
    ensures told { (m : MachineHeap) → IsAt state.old m → ToldSteps context.now (CodeStep.Bind binding.now ∷ []) state.old state.new m result }
    ensures scopes { OnOk result (SameOuter state.old.frames state.new.frames) }
    ensures lender { lender_of state.new.heap ≡ lender_of state.old.heap }
{
    if binding.targets.len() == 1 {
        if let Some(word) = scalar_value(&binding.right, &state.frames) {
            let value = RunValue::Word(word.base, word.number);
            state.frames.bind(binding.targets[0], value)?;
            return Ok(());
        }
        let value = run_right(&binding.right, binding.site, context, outside, state)?;
        state.frames.bind(binding.targets[0], value)?;
        return Ok(());
    }
    let mut values = Vec::new(context.alloc);
    run_rights(
        &binding.right,
        binding.site,
        context,
        outside,
        state,
        &mut values,
    )?;
    bind_all(state, &binding.targets, &values)?;
    Ok(())
}

/// Appends the results of a block, whose scope is open and ends with it.
#[cycle(run)]
fn run_open<P: Phases>(
    block: &CodeBlock,
    context: &Context<'_>,
    outside: Option<&Outside<P>>,
    state: &mut State<'_, '_>,
    values: &mut Vec<RunValue>,
) -> Result<(), Stop>
    ensures told { (m : MachineHeap) → IsAt state.old m → Told (λ _ ws. Appends values.old.items values.new.items ws) result state.new
        (does_in context.now (code_term block.now) (current state.old.frames) m) }
    ensures scopes { OnOk result (EndsScope state.old.frames state.new.frames) }
    ensures lender { lender_of state.new.heap ≡ lender_of state.old.heap }
{
    run_steps(&block.steps, context, outside, state)?;
    push_values(state, &block.results, values)?;
    state.frames.leave();
    Ok(())
}

/// Appends the results of a block, which runs in a scope of its own.
#[cycle(run)]
fn run_block<P: Phases>(
    block: &CodeBlock,
    context: &Context<'_>,
    outside: Option<&Outside<P>>,
    state: &mut State<'_, '_>,
    values: &mut Vec<RunValue>,
) -> Result<(), Stop>
    ensures told { (m : MachineHeap) → IsAt state.old m → Told (λ _ ws. Appends values.old.items values.new.items ws) result state.new
        (does_in context.now (code_term block.now) (current state.old.frames) m) }
    ensures scopes { OnOk result (SameScopes state.old.frames state.new.frames) }
    ensures lender { lender_of state.new.heap ≡ lender_of state.old.heap }
{
    state.frames.enter()?;
    run_open(block, context, outside, state, values)
}

/// The first result of a block, whose scope is open and ends with it.
#[cycle(run)]
pub fn run_first<P: Phases>(
    block: &CodeBlock,
    context: &Context<'_>,
    outside: Option<&Outside<P>>,
    state: &mut State<'_, '_>,
) -> Result<RunValue, Stop>
    ensures told { (m : MachineHeap) → IsAt state.old m
        → Told IsValue result state.new (first_value (does_in context.now (code_term block.now) (current state.old.frames)) m) }
    ensures scopes { OnOk result (EndsScope state.old.frames state.new.frames) }
    ensures lender { lender_of state.new.heap ≡ lender_of state.old.heap }
{
    run_steps(&block.steps, context, outside, state)?;
    let value = first_of(state, &block.results);
    state.frames.leave();
    Ok(value)
}

/// The first result of a block, which runs in a scope of its own.
#[cycle(run)]
fn run_inner<P: Phases>(
    block: &CodeBlock,
    context: &Context<'_>,
    outside: Option<&Outside<P>>,
    state: &mut State<'_, '_>,
) -> Result<RunValue, Stop>
    ensures told { (m : MachineHeap) → IsAt state.old m
        → Told IsValue result state.new (first_value (does_in context.now (code_term block.now) (current state.old.frames)) m) }
    ensures scopes { OnOk result (SameScopes state.old.frames state.new.frames) }
    ensures lender { lender_of state.new.heap ≡ lender_of state.old.heap }
{
    state.frames.enter()?;
    run_first(block, context, outside, state)
}

/// The first value of a right side.
#[cycle(run)]
fn run_right<P: Phases>(
    right: &CodeRight,
    site: Site,
    context: &Context<'_>,
    outside: Option<&Outside<P>>,
    state: &mut State<'_, '_>,
) -> Result<RunValue, Stop>
    ensures told { (m : MachineHeap) → IsAt state.old m
        → Told IsFirst result state.new (right_in context.now (code_right_term right.now) site (current state.old.frames) m) }
    ensures scopes { OnOk result (SameScopes state.old.frames state.new.frames) }
    ensures lender { lender_of state.new.heap ≡ lender_of state.old.heap }
{
    match right {
        CodeRight::If { cond, yes, no } => {
            if condition(state.frames.get(*cond), site)? {
                run_inner(yes, context, outside, state)
            } else {
                run_inner(no, context, outside, state)
            }
        }
        CodeRight::Loop { .. } | CodeRight::Call { .. } => {
            let mut values = Vec::new(context.alloc);
            run_rights(right, site, context, outside, state, &mut values)?;
            Ok(value_at(&values, 0))
        }
        _ => run_one(right, site, context, outside, state),
    }
}

/// Appends the values of a right side.
#[cycle(run)]
#[inline(never)]
fn run_rights<P: Phases>(
    right: &CodeRight,
    site: Site,
    context: &Context<'_>,
    outside: Option<&Outside<P>>,
    state: &mut State<'_, '_>,
    values: &mut Vec<RunValue>,
) -> Result<(), Stop>
    ensures told { (m : MachineHeap) → IsAt state.old m → Told (λ _ ws. Appends values.old.items values.new.items ws) result state.new
        (right_in context.now (code_right_term right.now) site (current state.old.frames) m) }
    ensures scopes { OnOk result (SameScopes state.old.frames state.new.frames) }
    ensures lender { lender_of state.new.heap ≡ lender_of state.old.heap }
{
    match right {
        CodeRight::If { cond, yes, no } => {
            if condition(state.frames.get(*cond), site)? {
                run_block(yes, context, outside, state, values)
            } else {
                run_block(no, context, outside, state, values)
            }
        }
        CodeRight::Loop {
            first_body,
            start,
            params,
            test,
            body,
            test_site,
        } => {
            let levels = levels_of(context);
            let alloc = context.alloc;
            if let Some(found) = loop_values(
                right,
                site,
                levels,
                alloc,
                &state.heap,
                &state.frames,
            )? {
                values.extend_from_slice(&found)?;
                return Ok(());
            }
            let turn = Turn {
                params,
                test,
                body,
                test_site: *test_site,
                site,
            };
            let mut own = Vec::new(context.alloc);
            push_values(state, start, &mut own)?;
            run_loop(&turn, *first_body, context, outside, state, &mut own)?;
            values.extend_from_slice(&own)?;
            Ok(())
        }
        CodeRight::Call { group, args } => {
            let mut passed = Vec::new(context.alloc);
            push_values(state, args, &mut passed)?;
            run_call(*group, &passed, site, context, outside, state, values)
        }
        _ => {
            let value = run_one(right, site, context, outside, state)?;
            values.push(value)?;
            Ok(())
        }
    }
}

/// The value of a right side that has always one. Another counts as want of memory.
#[cycle(run)]
fn run_one<P: Phases>(
    right: &CodeRight,
    site: Site,
    context: &Context<'_>,
    outside: Option<&Outside<P>>,
    state: &mut State<'_, '_>,
) -> Result<RunValue, Stop>
    ensures told { (m : MachineHeap) → IsAt state.old m
        → Told IsOnly result state.new (right_in context.now (code_right_term right.now) site (current state.old.frames) m) }
    ensures scopes { OnOk result (SameScopes state.old.frames state.new.frames) }
    ensures lender { lender_of state.new.heap ≡ lender_of state.old.heap }
{
    match right {
        CodeRight::With(with) => run_with(with, site, context, outside, state),
        CodeRight::Parted(parted) => run_parted(parted, site, context, outside, state),
        CodeRight::If { .. } | CodeRight::Loop { .. } | CodeRight::Call { .. } => Err(Stop::Memory),
        _ => right_value(
            right,
            site,
            context.alloc,
            &mut state.heap,
            &state.frames,
            outside,
        ),
    }
}

/// Runs the turns of a loop over these values.
#[cycle(run)]
#[inline(never)]
fn run_loop<P: Phases>(
    turn: &Turn<'_>,
    first_body: bool,
    context: &Context<'_>,
    outside: Option<&Outside<P>>,
    state: &mut State<'_, '_>,
    values: &mut Vec<RunValue>,
) -> Result<(), Stop>
    ensures told { (m : MachineHeap) → IsAt state.old m
        → Told (λ _ ws. map value_of values.new.items ≡ ws) result state.new
        (turns_do first_body context.now.turns turn.now.site turn.now.test_site
        (test_in context.now turn.now.params.now (code_term turn.now.test.now) (current state.old.frames))
        (turn_in context.now turn.now.params.now (code_term turn.now.body.now) (current state.old.frames)) (map value_of values.old.items) m) }
    ensures scopes { OnOk result (SameScopes state.old.frames state.new.frames) }
    ensures lender { lender_of state.new.heap ≡ lender_of state.old.heap }
{
    let mut next = Vec::new(context.alloc);
    if first_body {
        run_turn(turn, context, outside, state, values, &mut next)?;
        let left = context.turns.saturating_sub(1);
        repeat(turn, left, context, outside, state, values, &mut next)
    } else {
        repeat(
            turn,
            context.turns,
            context,
            outside,
            state,
            values,
            &mut next,
        )
    }
}

/// Makes turns while the test holds, so many at most.
#[cycle(run)]
fn repeat<P: Phases>(
    turn: &Turn<'_>,
    most: u64,
    context: &Context<'_>,
    outside: Option<&Outside<P>>,
    state: &mut State<'_, '_>,
    values: &mut Vec<RunValue>,
    next: &mut Vec<RunValue>,
) -> Result<(), Stop>
    ensures told { (m : MachineHeap) → IsAt state.old m
        → Told (λ _ ws. map value_of values.new.items ≡ ws) result state.new
        (repeat_does most turn.now.site turn.now.test_site
        (test_in context.now turn.now.params.now (code_term turn.now.test.now) (current state.old.frames))
        (turn_in context.now turn.now.params.now (code_term turn.now.body.now) (current state.old.frames)) (map value_of values.old.items) m) }
    ensures scopes { OnOk result (SameScopes state.old.frames state.new.frames) }
    ensures lender { lender_of state.new.heap ≡ lender_of state.old.heap }
{
    let mut left = most;
    loop {
        if !run_test(turn, context, outside, state, values)? {
            return Ok(());
        }
        if left == 0 {
            return Err(fault(FaultKind::F9, turn.site));
        }
        left -= 1;
        run_turn(turn, context, outside, state, values, next)?;
    }
}

/// Whether a further turn is made.
#[cycle(run)]
fn run_test<P: Phases>(
    turn: &Turn<'_>,
    context: &Context<'_>,
    outside: Option<&Outside<P>>,
    state: &mut State<'_, '_>,
    values: &[RunValue],
) -> Result<bool, Stop>
    ensures told { (m : MachineHeap) → IsAt state.old m
        → Told (λ t u. t ≡ u) result state.new
        (then_go (test_in context.now turn.now.params.now (code_term turn.now.test.now) (current state.old.frames) (map value_of values.now))
        (truth_of turn.now.test_site) m) }
    ensures scopes { OnOk result (SameScopes state.old.frames state.new.frames) }
    ensures lender { lender_of state.new.heap ≡ lender_of state.old.heap }
{
    state.frames.enter()?;
    bind_all(state, turn.params, values)?;
    let value = run_first(turn.test, context, outside, state)?;
    let truth = condition(value, turn.test_site)?;
    release(&mut state.heap, value)?;
    Ok(truth)
}

/// Gives the parameters the values of the next turn.
#[cycle(run)]
fn run_turn<P: Phases>(
    turn: &Turn<'_>,
    context: &Context<'_>,
    outside: Option<&Outside<P>>,
    state: &mut State<'_, '_>,
    values: &mut Vec<RunValue>,
    next: &mut Vec<RunValue>,
) -> Result<(), Stop>
    ensures told { (m : MachineHeap) → IsAt state.old m → Told (λ _ ws. map value_of values.new.items ≡ ws) result state.new
        (turn_in context.now turn.now.params.now (code_term turn.now.body.now) (current state.old.frames) (map value_of values.old.items) m) }
    ensures scopes { OnOk result (SameScopes state.old.frames state.new.frames) }
    ensures lender { lender_of state.new.heap ≡ lender_of state.old.heap }
{
    state.frames.enter()?;
    bind_all(state, turn.params, values)?;
    next.clear();
    run_open(turn.body, context, outside, state, next)?;
    values.clear();
    values.extend_from_slice(next)?;
    Ok(())
}

/// Appends the results of a call: those of its kernel, if it has one that does not go too deep.
#[cycle(run)]
#[inline(never)]
fn run_call<P: Phases>(
    group: u32,
    args: &[RunValue],
    site: Site,
    context: &Context<'_>,
    outside: Option<&Outside<P>>,
    state: &mut State<'_, '_>,
    values: &mut Vec<RunValue>,
) -> Result<(), Stop>
    ensures told { (m : MachineHeap) → IsAt state.old m
        → Told (λ _ ws. Appends values.old.items values.new.items ws) result state.new (calls_in context.now group (map value_of args.now) site m) }
    ensures scopes { OnOk result (SameScopes state.old.frames state.new.frames) }
    ensures lender { lender_of state.new.heap ≡ lender_of state.old.heap }
{
    let levels = levels_of(context);
    if let Some(found) = call_values(levels, group, args, context.alloc)? {
        values.extend_from_slice(&found)?;
        return Ok(());
    }
    run_chosen(group, args, site, context, outside, state, values)
}

/// Appends the results of a call, which takes a function of the group.
#[cycle(run)]
#[inline(never)]
fn run_chosen<P: Phases>(
    group: u32,
    args: &[RunValue],
    site: Site,
    context: &Context<'_>,
    outside: Option<&Outside<P>>,
    state: &mut State<'_, '_>,
    values: &mut Vec<RunValue>,
) -> Result<(), Stop>
    ensures told { (m : MachineHeap) → IsAt state.old m
        → Told (λ _ ws. Appends values.old.items values.new.items ws) result state.new (calls_in context.now group (map value_of args.now) site m) }
    ensures scopes { OnOk result (SameScopes state.old.frames state.new.frames) }
    ensures lender { lender_of state.new.heap ≡ lender_of state.old.heap }
{
    let code = context.code.get();
    let Some(place) = choose(code, group, args) else {
        return Err(fault(FaultKind::F7, site));
    };
    let function = &code.functions[place];
    let inner = deeper(function, group, site, context)?;
    run_function(function, args, &inner, outside, state, values)
}

/// Appends the results of a function.
#[cycle(run)]
#[inline(never)]
pub fn run_function<P: Phases>(
    function: &CodeFun,
    args: &[RunValue],
    context: &Context<'_>,
    outside: Option<&Outside<P>>,
    state: &mut State<'_, '_>,
    values: &mut Vec<RunValue>,
) -> Result<(), Stop>
    ensures told { (m : MachineHeap) → IsAt state.old m → Told (λ _ ws. Appends values.old.items values.new.items ws) result state.new
        (function_does context.now.turns (calls_in context.now) (code_fun_term function.now) (map value_of args.now) m) }
    ensures scopes { OnOk result (SameScopes state.old.frames state.new.frames) }
    ensures lender { lender_of state.new.heap ≡ lender_of state.old.heap }
{
    state.frames.enter_call()?;
    bind_params(state, &function.params, args)?;
    let mut own = Vec::new(context.alloc);
    run_open(&function.body, context, outside, state, &mut own)?;
    if !all_have(&function.results, &own) {
        return Err(fault(FaultKind::F7, function.ends));
    }
    values.extend_from_slice(&own)?;
    Ok(())
}
