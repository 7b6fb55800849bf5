//! Levels of the grammar.
ghost use Rattle.std.specs.Prelude.{◌≡◌};
ghost use Rattle.sac_print.specs.Operators.{tightness, is_looser, tighter, level_of};

use sac_base::Op;

/// What is wanted at a place of the grammar, from the loosest phrase to the tightest.
#[derive(Clone, Copy, Debug, PartialEq, Eq)]
pub enum Level {
    Expression,
    Disjunction,
    Conjunction,
    Equality,
    Comparison,
    Sum,
    Product,
    Prefix,
    Postfix,
}

impl Level {
    fn tightness(self) -> u8
        ensures { result ≡ tightness self }
    {
        match self {
            Level::Expression => 0,
            Level::Disjunction => 1,
            Level::Conjunction => 2,
            Level::Equality => 3,
            Level::Comparison => 4,
            Level::Sum => 5,
            Level::Product => 6,
            Level::Prefix => 7,
            Level::Postfix => 8,
        }
    }

    /// Whether a phrase of this level has to be in parentheses where one of another level is wanted.
    pub fn is_looser(self, wanted: Level) -> bool
        ensures { result ≡ is_looser self wanted }
    {
        self.tightness() < wanted.tightness()
    }

    /// The next tighter level.
    pub fn tighter(self) -> Level
        ensures { result ≡ tighter self }
    {
        match self {
            Level::Expression => Level::Disjunction,
            Level::Disjunction => Level::Conjunction,
            Level::Conjunction => Level::Equality,
            Level::Equality => Level::Comparison,
            Level::Comparison => Level::Sum,
            Level::Sum => Level::Product,
            Level::Product => Level::Prefix,
            Level::Prefix | Level::Postfix => Level::Postfix,
        }
    }

    /// The level at which an operator of two operands stands.
    pub fn of(op: Op) -> Level
        ensures { result ≡ level_of op }
    {
        match op {
            Op::Or => Level::Disjunction,
            Op::And => Level::Conjunction,
            Op::Eq | Op::Ne => Level::Equality,
            Op::Lt | Op::Le | Op::Gt | Op::Ge => Level::Comparison,
            Op::Add | Op::Sub => Level::Sum,
            Op::Mul | Op::Div | Op::Rem => Level::Product,
            Op::Neg | Op::Not | Op::Min | Op::Max => Level::Prefix,
        }
    }
}
