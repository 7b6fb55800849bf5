//! The trees of counted code.

use core_ir::{CoreOp, PartedOp, Var};
use sac_base::{Array, ArrayType, Base, FaultKind, Grid, Name, Op, Shape, Site};

/// A program.
#[derive(Drop)]
pub struct Code {
    pub functions: Vec<CodeFun>,
    /// For each name the places of its instances in `functions`.
    pub groups: Vec<Vec<u32>>,
    /// The place in `functions` of the one that the program's arguments call.
    pub main: u32,
}

/// A function.
#[derive(Drop)]
pub struct CodeFun {
    pub name: Name,
    pub site: Site,
    pub params: Vec<(Var, ArrayType)>,
    pub results: Vec<ArrayType>,
    pub inline: bool,
    pub body: CodeBlock,
    /// The site of its `return`.
    pub ends: Site,
}

/// Steps one after another, and the variables whose references the block hands on.
#[derive(Drop)]
#[cycle(code)]
pub struct CodeBlock {
    pub steps: Vec<CodeStep>,
    pub results: Vec<Var>,
}

/// A binding, or one reference more or less to a variable's buffer.
#[derive(Drop)]
#[cycle(code)]
pub enum CodeStep {
    Bind(CodeLet),
    Keep(Var),
    Release(Var),
}

/// A binding of variables to the values of a right side.
#[derive(Drop)]
#[cycle(code)]
pub struct CodeLet {
    pub targets: Vec<Var>,
    pub site: Site,
    pub right: CodeRight,
}

/// The right side of a binding.
#[derive(Drop)]
#[cycle(code)]
pub enum CodeRight {
    Const(Array),
    Copy(Var),
    Unary(Op, Var),
    Binary(Op, Var, Var),
    Literal(Vec<Var>),
    Dim(Var),
    ShapeOf(Var),
    /// The shape, then the array.
    Reshape(Var, Var),
    /// The array, then the index.
    Select(Var, Var),
    /// The array, then the index, then the new part.
    Replace(Var, Var, Var),
    If {
        cond: Var,
        yes: CodeBlock,
        no: CodeBlock,
    },
    /// A loop over the parameters, whose first values are those of `start`. The first result of `test` says whether a turn is made, and a turn gives
    /// the parameters the results of `body`. Where `first_body` holds the first turn is made before the first test.
    Loop {
        first_body: bool,
        start: Vec<Var>,
        params: Vec<Var>,
        test: CodeBlock,
        body: CodeBlock,
        test_site: Site,
    },
    Call {
        group: u32,
        args: Vec<Var>,
    },
    With(CodeWith),
    Parted(CodeParted),
    /// A fault whenever the binding is reached.
    Always(FaultKind),
    /// The variable's value, or the fault F7 where the type excludes it.
    Check(Var, ArrayType),
}

/// A with-loop over the members of generators.
#[derive(Drop)]
#[cycle(code)]
pub struct CodeWith {
    pub gens: Vec<CodeGen>,
    pub op: CoreOp,
}

/// A generator of a with-loop. A bound that is left out is a dot. Its body binds the index vector, and the components to the names where there are names.
#[derive(Drop)]
#[cycle(code)]
pub struct CodeGen {
    pub lower: Option<Var>,
    pub lower_closed: bool,
    pub upper: Option<Var>,
    pub upper_closed: bool,
    pub step: Option<Var>,
    pub width: Option<Var>,
    pub index: Var,
    pub names: Vec<Var>,
    pub body: CodeBlock,
    pub site: Site,
}

/// A with-loop whose frame and parts are known before the run. Default cells and old cells have parts of their own.
#[derive(Drop)]
#[cycle(code)]
pub struct CodeParted {
    pub frame: Grid,
    /// The base of the cells and of the result, which no part tells where the frame is empty.
    pub base: Base,
    /// The shape of the cells.
    pub cell: Shape,
    pub op: PartedOp,
    pub parts: Vec<CodePart>,
    /// The mark: the variable whose reference the loop ends, and whose buffer it takes for its result where that reference is the only one.
    pub reuse: Option<Var>,
}

/// A part of a parted loop: the members of the grid have the cells that the body gives at them.
#[derive(Drop)]
#[cycle(code)]
pub struct CodePart {
    pub grid: Grid,
    pub index: Var,
    pub body: CodeBlock,
    pub site: Site,
}

/// What an evaluation costs, each number modulo 2^64: buffers taken, buffers given back, marked loops that took over a buffer, and phases, which are
/// the with-loops outside every cell that passed their checks and are folds or have a buffer as result.
#[derive(Clone, Copy, Debug, PartialEq, Eq)]
pub struct Cost {
    pub taken: u64,
    pub given: u64,
    pub reused: u64,
    pub phases: u64,
}
