ghost use Rattle.std.specs.Prelude.{◌≡◌};
ghost use Rattle.sac_base.specs.Faults.{fault_code};

use crate::Site;

/// What went wrong while a program ran.
#[derive(Clone, Copy, Debug, PartialEq, Eq)]
pub enum FaultKind {
    /// Not an index of the array.
    F1,
    /// A zero divisor.
    F2,
    /// Shapes differ, or a condition is no scalar.
    F3,
    /// Not a shape, or a rank above 8.
    F4,
    /// A bad generator.
    F5,
    /// The shape of a cell differs.
    F6,
    /// No instance fits, or a result is outside its type.
    F7,
    /// Too many elements or indices.
    F8,
    /// Too many turns of a loop.
    F9,
    /// Calls are nested too deep.
    F10,
}

impl FaultKind {
    /// The code that stands for this kind in the output.
    pub fn code(self) -> &'static str
        ensures { result.now ≡ fault_code self }
    {
        match self {
            FaultKind::F1 => "F1",
            FaultKind::F2 => "F2",
            FaultKind::F3 => "F3",
            FaultKind::F4 => "F4",
            FaultKind::F5 => "F5",
            FaultKind::F6 => "F6",
            FaultKind::F7 => "F7",
            FaultKind::F8 => "F8",
            FaultKind::F9 => "F9",
            FaultKind::F10 => "F10",
        }
    }
}

/// A fault, and where it came.
#[derive(Clone, Copy, Debug, PartialEq, Eq)]
pub struct Fault {
    pub kind: FaultKind,
    pub site: Site,
}

/// The limits on the turns of one execution of a loop, and on nested calls.
#[derive(Clone, Copy, Debug, PartialEq, Eq)]
pub struct Caps {
    pub turns: u64,
    pub depth: u64,
}
