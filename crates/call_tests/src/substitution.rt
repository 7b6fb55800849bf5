//! The core of a program of two loops, made with no branch: where there is no memory, a list is shorter, and the test that looks at it fails.

use core_ir::{
    Block, Core, CoreFun, CoreGen, CoreOp, Let, Right, Var, WithLoop, copy_block, copy_core,
};
use core_subst::{free, fresh, substitute};
use sac_base::{Array, Base, Cell, FaultKind, Name, Op, Site};
use std::alloc::Global;

const SITE: Site = Site { line: 3, col: 7 };

/// A list of one thing.
fn one<T: Drop>(alloc: Global, thing: T) -> Vec<T> {
    let mut list = Vec::new(alloc);
    let _ = list.push(thing);
    list
}

fn binding(alloc: Global, target: u32, right: Right) -> Let {
    Let {
        targets: one(alloc, Var(target)),
        site: SITE,
        right,
    }
}

/// Appends a binding.
fn bind(alloc: Global, lets: &mut Vec<Let>, target: u32, right: Right) {
    let _ = lets.push(binding(alloc, target, right));
}

/// Appends a binding of a number.
fn number(alloc: Global, lets: &mut Vec<Let>, target: u32, value: Cell) {
    let right = match Array::scalar(alloc, Base::Int, value) {
        Ok(array) => Right::Const(array),
        Err(_) => Right::Always(FaultKind::F2),
    };
    bind(alloc, lets, target, right);
}

/// Appends the literal of one number.
fn vector(alloc: Global, lets: &mut Vec<Let>, part: u32, value: Cell) {
    number(alloc, lets, part, value);
    let literal = Right::Literal(one(alloc, Var(part)));
    bind(alloc, lets, part.wrapping_add(1), literal);
}

/// A block with one result.
fn gives(alloc: Global, lets: Vec<Let>, given: u32) -> Block {
    Block {
        lets,
        results: one(alloc, Var(given)),
    }
}

/// `iv[0] * 2`
fn doubled(alloc: Global) -> Block {
    let mut lets = Vec::new(alloc);
    number(alloc, &mut lets, 5, 0);
    bind(alloc, &mut lets, 6, Right::Select(Var(4), Var(5)));
    number(alloc, &mut lets, 7, 2);
    bind(alloc, &mut lets, 8, Right::Binary(Op::Mul, Var(6), Var(7)));
    gives(alloc, lets, 8)
}

/// `a[iv] + 1`
fn raised(alloc: Global) -> Block {
    let mut lets = Vec::new(alloc);
    bind(alloc, &mut lets, 18, Right::Select(Var(12), Var(17)));
    number(alloc, &mut lets, 19, 1);
    let sum = Right::Binary(Op::Add, Var(18), Var(19));
    bind(alloc, &mut lets, 20, sum);
    gives(alloc, lets, 20)
}

/// Appends `x = with { ([0] <= iv < [16]) : e; } : genarray([16], 0);`, with the variables of the bounds from a first one on, that of the index behind
/// them, and those of the shape and of the array behind the variables of the cell.
fn with_loop(alloc: Global, lets: &mut Vec<Let>, first: u32, body: Block, shape: u32) {
    vector(alloc, lets, first, 0);
    vector(alloc, lets, first.wrapping_add(2), 16);
    vector(alloc, lets, shape, 16);
    number(alloc, lets, shape.wrapping_add(2), 0);
    let generator = CoreGen {
        lower: Some(Var(first.wrapping_add(1))),
        lower_closed: true,
        upper: Some(Var(first.wrapping_add(3))),
        upper_closed: false,
        step: None,
        width: None,
        index: Var(first.wrapping_add(4)),
        names: Vec::new(alloc),
        body,
        site: SITE,
    };
    let op = CoreOp::Genarray {
        shape: Var(shape.wrapping_add(1)),
        default: Var(shape.wrapping_add(2)),
    };
    let gens = one(alloc, generator);
    let right = Right::With(WithLoop { gens, op });
    bind(alloc, lets, shape.wrapping_add(3), right);
}

/// `a = with { ([0] <= iv < [16]) : iv[0] * 2; } : genarray([16], 0); b = with { ([0] <= iv < [16]) : a[iv] + 1; } : genarray([16], 0); return (b);`
fn two_loops(alloc: Global) -> Block {
    let mut lets = Vec::new(alloc);
    with_loop(alloc, &mut lets, 0, doubled(alloc), 9);
    with_loop(alloc, &mut lets, 13, raised(alloc), 21);
    gives(alloc, lets, 24)
}

/// A function of no parameters.
fn function(alloc: Global, name: Name, body: Block) -> CoreFun {
    CoreFun {
        name,
        site: SITE,
        params: Vec::new(alloc),
        results: Vec::new(alloc),
        inline: false,
        body,
        ends: SITE,
    }
}

fn core_of(alloc: Global, main: CoreFun) -> Core {
    Core {
        functions: one(alloc, main),
        groups: one(alloc, one(alloc, 0)),
        main: 0,
    }
}

fn main_name(alloc: Global) -> Option<Name> {
    Name::from_bytes(alloc, b"main").ok()?
}

/// Whether these are the free variables of a block.
fn has_free(alloc: Global, block: &Block, wanted: &[Var]) -> bool {
    match free(alloc, block) {
        Ok(found) => found.as_slice() == wanted,
        Err(_) => false,
    }
}

/// Whether a copy of a block has no free variable.
fn is_copy_closed(alloc: Global, block: &Block) -> bool {
    match copy_block(alloc, block) {
        Ok(copy) => has_free(alloc, &copy, &[]),
        Err(_) => false,
    }
}

/// Whether the first function of a core has no free variable, and 25 is the first new one.
fn is_closed(alloc: Global, core: &Core) -> bool {
    match core.functions.first() {
        Some(main) => is_copy_closed(alloc, &main.body) && fresh(main) == Some(Var(25)),
        None => false,
    }
}

fn is_copied_core_closed(alloc: Global, core: &Core) -> bool {
    match copy_core(alloc, core) {
        Ok(copy) => is_closed(alloc, &copy),
        Err(_) => false,
    }
}

#[test]
fn a_whole_function_has_no_free_variable(rt: HostRuntime) {
    let alloc = rt.alloc();
    let name = main_name(alloc).expect(&rt, "a name");
    let core = core_of(alloc, function(alloc, name, two_loops(alloc)));
    assert!(rt; is_copied_core_closed(alloc, &core));
}

/// A function's body, with a new variable in the place of another one.
fn replaced(alloc: Global, function: CoreFun, from: Var) -> Option<Block> {
    let new = fresh(&function)?;
    substitute(alloc, function.body, &[(from, new)]).ok()
}

/// Whether the variable 21 stands for the array that a cell reads.
fn is_replaced(alloc: Global, name: Name) -> bool {
    match replaced(alloc, function(alloc, name, raised(alloc)), Var(12)) {
        Some(body) => has_free(alloc, &body, &[Var(17), Var(21)]),
        None => false,
    }
}

#[test]
fn the_array_that_a_cell_reads_is_replaced(rt: HostRuntime) {
    let alloc = rt.alloc();
    let name = main_name(alloc).expect(&rt, "a name");
    assert!(rt; is_replaced(alloc, name));
}
