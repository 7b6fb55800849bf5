//! The trees of the core.

use sac_base::{Array, ArrayType, Base, FaultKind, Grid, Name, Op, Shape, Site};

/// A variable, by its number.
#[derive(Clone, Copy, Debug, PartialEq, Eq)]
pub struct Var(pub u32);

/// A program.
#[derive(Drop)]
pub struct Core {
    pub functions: Vec<CoreFun>,
    /// For each name the places of its instances in `functions`.
    pub groups: Vec<Vec<u32>>,
    /// The place in `functions` of the one that the program's arguments call.
    pub main: u32,
}

/// A function.
#[derive(Drop)]
pub struct CoreFun {
    pub name: Name,
    pub site: Site,
    pub params: Vec<(Var, ArrayType)>,
    pub results: Vec<ArrayType>,
    pub inline: bool,
    pub body: Block,
    /// The site of its `return`.
    pub ends: Site,
}

/// Bindings one after another, and the variables whose values the block gives.
#[derive(Drop)]
#[cycle(block)]
pub struct Block {
    pub lets: Vec<Let>,
    pub results: Vec<Var>,
}

/// A binding of variables to the values of a right side.
#[derive(Drop)]
#[cycle(block)]
pub struct Let {
    pub targets: Vec<Var>,
    pub site: Site,
    pub right: Right,
}

/// The right side of a binding.
#[derive(Drop)]
#[cycle(block)]
pub enum Right {
    Const(Array),
    Copy(Var),
    Unary(Op, Var),
    Binary(Op, Var, Var),
    Literal(Vec<Var>),
    Dim(Var),
    ShapeOf(Var),
    /// The shape, then the array.
    Reshape(Var, Var),
    /// The array, then the index.
    Select(Var, Var),
    /// The array, then the index, then the new part.
    Replace(Var, Var, Var),
    If {
        cond: Var,
        yes: Block,
        no: Block,
    },
    /// A loop over the parameters, whose first values are those of `start`. The first result of `test` says whether a turn is made, and a turn gives
    /// the parameters the results of `body`. Where `first_body` holds the first turn is made before the first test.
    Loop {
        first_body: bool,
        start: Vec<Var>,
        params: Vec<Var>,
        test: Block,
        body: Block,
        test_site: Site,
    },
    Call {
        group: u32,
        args: Vec<Var>,
    },
    With(WithLoop),
    Parted(PartedLoop),
    /// A fault whenever the binding is reached.
    Always(FaultKind),
    /// The variable's value, or the fault F7 where the type excludes it.
    Check(Var, ArrayType),
}

/// A with-loop over the members of generators.
#[derive(Drop)]
#[cycle(block)]
pub struct WithLoop {
    pub gens: Vec<CoreGen>,
    pub op: CoreOp,
}

/// A generator of a with-loop. A bound that is left out is a dot. Its body binds the index vector, and the components to the names where there are names.
#[derive(Drop)]
#[cycle(block)]
pub struct CoreGen {
    pub lower: Option<Var>,
    pub lower_closed: bool,
    pub upper: Option<Var>,
    pub upper_closed: bool,
    pub step: Option<Var>,
    pub width: Option<Var>,
    pub index: Var,
    pub names: Vec<Var>,
    pub body: Block,
    pub site: Site,
}

/// What a with-loop makes of its cells.
#[derive(Clone, Copy, Debug, PartialEq, Eq)]
pub enum CoreOp {
    Genarray { shape: Var, default: Var },
    Modarray { array: Var },
    Fold { op: Op, neutral: Var },
}

/// A with-loop whose frame and parts are known before the run. Default cells and old cells have parts of their own.
#[derive(Drop)]
#[cycle(block)]
pub struct PartedLoop {
    pub frame: Grid,
    /// The base of the cells and of the result, which no part tells where the frame is empty.
    pub base: Base,
    /// The shape of the cells.
    pub cell: Shape,
    pub op: PartedOp,
    pub parts: Vec<CorePart>,
}

/// A part of a parted loop: the members of the grid have the cells that the body gives at them.
#[derive(Drop)]
#[cycle(block)]
pub struct CorePart {
    pub grid: Grid,
    pub index: Var,
    pub body: Block,
    pub site: Site,
}

/// What a parted loop makes of its cells.
#[derive(Clone, Copy, Debug, PartialEq, Eq)]
pub enum PartedOp {
    Genarray,
    Modarray { array: Var },
    Fold { op: Op, neutral: Var },
}
