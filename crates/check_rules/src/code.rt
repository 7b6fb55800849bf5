//! The codes of the rules.

ghost use Rattle.std.specs.Prelude.{◌≡◌};
ghost use Rattle.check_rules.specs.Codes.{check_code};

/// A rule of acceptance, by what is there where it is violated.
#[derive(Clone, Copy, Debug, PartialEq, Eq)]
pub enum CheckCode {
    /// A used variable is bound nowhere in the function.
    C1,
    /// A called function does not exist.
    C2,
    /// A number of arguments, results, targets or returned values is wrong.
    C3,
    /// A base is not the one that is needed.
    C4,
    /// A used variable is not bound on every path to the use.
    C5,
    /// An instance clashes with an earlier one of its name.
    C6,
    /// There is no `main`, or a second one.
    C7,
    /// `main` is inline, or an inline function calls an inline name that does not stand wholly before it.
    C8,
    /// A name stands twice in a list of parameters, targets or index names.
    C9,
    /// A dot is a bound of a fold.
    C10,
}

impl CheckCode {
    /// The code that stands for this rule in the output.
    pub fn code(self) -> &'static str
        ensures { result.now ≡ check_code self }
    {
        match self {
            CheckCode::C1 => "C1",
            CheckCode::C2 => "C2",
            CheckCode::C3 => "C3",
            CheckCode::C4 => "C4",
            CheckCode::C5 => "C5",
            CheckCode::C6 => "C6",
            CheckCode::C7 => "C7",
            CheckCode::C8 => "C8",
            CheckCode::C9 => "C9",
            CheckCode::C10 => "C10",
        }
    }
}
