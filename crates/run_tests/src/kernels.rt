//! Loops and calls with scalars and short vectors that are run as kernels.

use buffer_heap::Heap;
use core_ir::Var;
use counted_code::{Code, CodeBlock, CodeFun, CodeLet, CodeRight, CodeStep};
use run_kernels::{CallLevels, PlainGroups, call_values, loop_values};
use run_store::Store;
use run_values::{Few, Frames, RunValue};
use sac_base::{ArrayType, Base, Cell, Memory, Name, Op, Part, Shape, Site, Stop};
use std::alloc::Global;

const HERE: Site = Site { line: 2, col: 5 };

// A list of one thing, or of none where there is no memory.
fn one<T: Drop>(alloc: Global, thing: T) -> Vec<T> {
    let mut list = Vec::new(alloc);
    let _ = list.push(thing);
    list
}

fn vars(alloc: Global, numbers: &[u32]) -> Vec<Var> {
    let mut vars = Vec::new(alloc);
    for n in numbers {
        let _ = vars.push(Var(*n));
    }
    vars
}

// A block without steps.
fn block(alloc: Global, results: &[u32]) -> CodeBlock {
    CodeBlock {
        steps: Vec::new(alloc),
        results: vars(alloc, results),
    }
}

// Appends a binding to a block.
fn bind(block: &mut CodeBlock, alloc: Global, targets: &[u32], right: CodeRight) {
    let binding = CodeLet {
        targets: vars(alloc, targets),
        site: HERE,
        right,
    };
    let _ = block.steps.push(CodeStep::Bind(binding));
}

fn binary(op: Op, x: u32, y: u32) -> CodeRight {
    CodeRight::Binary(op, Var(x), Var(y))
}

fn call(alloc: Global, args: &[u32]) -> CodeRight {
    CodeRight::Call {
        group: 0,
        args: vars(alloc, args),
    }
}

// A block of one binding, whose target is its result.
fn single(alloc: Global, target: u32, right: CodeRight) -> CodeBlock {
    let mut only = block(alloc, &[target]);
    bind(&mut only, alloc, &[target], right);
    only
}

// A loop over variables, while the variable 10 is less than another one.
fn looping(alloc: Global, start: &[u32], params: &[u32], most: u32, body: CodeBlock) -> CodeRight {
    CodeRight::Loop {
        first_body: false,
        start: vars(alloc, start),
        params: vars(alloc, params),
        test: single(alloc, 20, binary(Op::Lt, 10, most)),
        body,
        test_site: HERE,
    }
}

// The type of the int arrays of a shape.
fn int(shape: Shape) -> ArrayType {
    ArrayType {
        base: Base::Int,
        part: Part::Known(shape),
    }
}

// A function of this body with a parameter of this shape, the variable 0.
fn function(alloc: Global, name: Name, shape: Shape, body: CodeBlock) -> CodeFun {
    CodeFun {
        name,
        site: HERE,
        params: one(alloc, (Var(0), int(shape))),
        results: one(alloc, int(Shape::empty(alloc))),
        inline: false,
        body,
        ends: HERE,
    }
}

fn name(alloc: Global) -> Option<Name> {
    Name::from_bytes(alloc, b"f").ok()?
}

// Gives twice a scalar.
fn double(alloc: Global) -> Option<CodeFun> {
    let name = name(alloc)?;
    let body = single(alloc, 1, binary(Op::Add, 0, 0));
    Some(function(alloc, name, Shape::empty(alloc), body))
}

// A turn that adds the variable 2 to the variable 10, and to the variable 11 what a call with the variable 2 taken from the variable 1 gives.
fn turn(alloc: Global) -> CodeBlock {
    let mut turn = block(alloc, &[21, 24]);
    bind(&mut turn, alloc, &[21], binary(Op::Add, 10, 2));
    bind(&mut turn, alloc, &[22], binary(Op::Sub, 1, 2));
    bind(&mut turn, alloc, &[23], call(alloc, &[0, 22, 2]));
    bind(&mut turn, alloc, &[24], binary(Op::Add, 11, 23));
    turn
}

// Two such turns, where the variable 2 is 1.
fn two_turns(alloc: Global) -> CodeBlock {
    let mut turns = block(alloc, &[6]);
    bind(&mut turns, alloc, &[3], binary(Op::Sub, 2, 2));
    bind(&mut turns, alloc, &[4], binary(Op::Add, 2, 2));
    let all = looping(alloc, &[3, 3], &[10, 11], 4, turn(alloc));
    bind(&mut turns, alloc, &[5, 6], all);
    turns
}

// Of a vector of two numbers, n and 1: calls itself twice with n - 1 in the place of n, in a loop, and gives the sum, or the vector's first number where n
// is 0.
fn ways(alloc: Global) -> Option<CodeFun> {
    let name = name(alloc)?;
    let branches = CodeRight::If {
        cond: Var(1),
        yes: two_turns(alloc),
        no: single(alloc, 7, CodeRight::Select(Var(0), Var(1))),
    };
    let pair = Shape::vector(alloc, 2);
    let mut ways = function(alloc, name, pair, single(alloc, 8, branches));
    let _ = ways.params.push((Var(1), int(Shape::empty(alloc))));
    let _ = ways.params.push((Var(2), int(Shape::empty(alloc))));
    Some(ways)
}

// A program of one function, which is the group 0.
fn program(alloc: Global, function: Option<CodeFun>) -> Code {
    let functions = match function {
        Some(function) => one(alloc, function),
        None => Vec::new(alloc),
    };
    Code {
        functions,
        groups: one(alloc, one(alloc, 0)),
        main: 0,
    }
}

// Four turns at most.
fn levels<'a>(plain: &'a PlainGroups<'a>, left: u64) -> CallLevels<'a> {
    CallLevels {
        plain,
        turns: 4,
        left,
        nest: 0,
        tried: left,
    }
}

// The one number that a kernel gives. None where there is no kernel.
fn number(answer: Result<Option<Vec<RunValue>>, Stop>) -> Option<Cell> {
    match answer.ok()??.first() {
        Some(RunValue::Word(Base::Int, n)) => Some(*n),
        _ => None,
    }
}

// The variable 1 is 7, and the variable 2 is 100.
fn bound(alloc: Global) -> Result<Frames<'static>, Memory> {
    let mut frames = Frames::new(alloc);
    frames.bind(Var(1), RunValue::Word(Base::Int, 7))?;
    frames.bind(Var(2), RunValue::Word(Base::Int, 100))?;
    Ok(frames)
}

// What the variable 1 comes to in a loop that makes it anew by this turn while it is less than the variable 2, where functions may be called one level deep.
fn looped(alloc: Global, turn: CodeRight) -> Option<Cell> {
    let frames = bound(alloc).ok()?;
    let right = looping(alloc, &[1], &[10], 2, single(alloc, 21, turn));
    let code = program(alloc, double(alloc));
    let plain = PlainGroups::of(alloc, &code);
    let store = Store::of(Heap::new(alloc));
    number(loop_values(&right, HERE, levels(&plain, 1), alloc, &store, &frames))
}

fn doubled(alloc: Global) -> Option<Cell> {
    looped(alloc, binary(Op::Add, 10, 10))
}

fn doubled_by_calls(alloc: Global) -> Option<Cell> {
    looped(alloc, call(alloc, &[10]))
}

#[test]
fn loops_over_scalars_are_kernels(rt: HostRuntime) {
    assert_eq!(rt; doubled(rt.alloc()), Some(112));
    assert_eq!(rt; doubled_by_calls(rt.alloc()), Some(112));
}

// What `ways` gives for a vector that begins with 3, as a kernel.
fn ways_of(alloc: Global, n: Cell) -> Option<Cell> {
    let pair = Few::from_slice(&[3, 4])?;
    let args = [
        RunValue::Short(Base::Int, pair),
        RunValue::Word(Base::Int, n),
        RunValue::Word(Base::Int, 1),
    ];
    let code = program(alloc, ways(alloc));
    let plain = PlainGroups::of(alloc, &code);
    number(call_values(levels(&plain, 100), 0, &args, alloc))
}

#[test]
fn calls_that_call_themselves_are_kernels(rt: HostRuntime) {
    assert_eq!(rt; ways_of(rt.alloc(), 3), Some(24));
}
