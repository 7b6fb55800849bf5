//! The trees of a source.
#![tactic(auto)]

mod mains;
mod measure;
mod rules;

pub use measure::height;
pub use rules::{
    agree, builtin_base, choice_base, first_base, literal_base, may_be, may_match, operand_base,
    operands_fit, where_holds,
};
use sac_base::{ArrayType, Base, Name, Op, Site};

/// A whole source.
#[derive(Drop)]
pub struct Program {
    pub functions: Vec<Function>,
    pub end: Site,
}

#[derive(Drop)]
pub struct Function {
    pub inline: bool,
    pub results: Vec<ArrayType>,
    pub name: Name,
    pub site: Site,
    pub params: Vec<Param>,
    pub body: Vec<Statement>,
    pub values: Vec<Expression>,
    pub ends: Site,
}

#[derive(Drop)]
pub struct Param {
    pub ty: ArrayType,
    pub name: Name,
    pub site: Site,
}

#[derive(Drop)]
pub struct Target {
    pub name: Name,
    pub site: Site,
}

#[cycle(tree)]
#[derive(Drop)]
pub enum Statement {
    Assign {
        targets: Vec<Target>,
        value: Expression,
    },
    Replace {
        target: Target,
        bracket: Site,
        index: Expression,
        value: Expression,
    },
    If {
        cond: Expression,
        yes: Vec<Statement>,
        no: Vec<Statement>,
        site: Site,
    },
    While {
        cond: Expression,
        body: Vec<Statement>,
        site: Site,
    },
    Do {
        body: Vec<Statement>,
        cond: Expression,
        site: Site,
        test: Site,
    },
}

#[cycle(tree)]
#[derive(Drop)]
pub enum Expression {
    Number(i32, Site),
    Truth(bool, Site),
    Variable(Name, Site),
    Literal(Vec<Expression>, Site),
    Unary(Op, Box<Expression>, Site),
    Binary(Op, Box<Expression>, Box<Expression>, Site),
    Choice(Box<Expression>, Box<Expression>, Box<Expression>, Site),
    Select(Box<Expression>, Box<Expression>, Site),
    Call(Name, Vec<Expression>, Site),
    Builtin(Builtin, Vec<Expression>, Site),
    With(Vec<Generator>, Box<Operation>, Site),
}

#[derive(Clone, Copy, PartialEq, Eq)]
pub enum Builtin {
    Dim,
    Shape,
    Reshape,
}

#[cycle(tree)]
#[derive(Drop)]
pub struct Generator {
    pub lower: Bound,
    pub lower_closed: bool,
    pub index: Index,
    pub upper: Bound,
    pub upper_closed: bool,
    pub step: Option<Expression>,
    pub width: Option<Expression>,
    pub body: Vec<Statement>,
    pub cell: Expression,
    pub site: Site,
}

#[cycle(tree)]
#[derive(Drop)]
pub enum Bound {
    Dot(Site),
    Given(Expression),
}

#[derive(Drop)]
pub enum Index {
    Named(Target),
    Parts(Vec<Target>),
}

#[cycle(tree)]
#[derive(Drop)]
pub enum Operation {
    Genarray {
        shape: Expression,
        default: Option<Expression>,
        site: Site,
    },
    Modarray {
        array: Expression,
        site: Site,
    },
    Fold {
        op: Op,
        neutral: Expression,
        site: Site,
    },
}

/// A name that is bound, and the base of what it is bound to, where that has one.
#[derive(Drop)]
pub struct Known {
    pub name: Name,
    pub base: Option<Base>,
}
