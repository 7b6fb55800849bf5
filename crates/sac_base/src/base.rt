ghost use Rattle.std.specs.Prelude.{◌≡◌};
ghost use Rattle.sac_base.specs.Arrays.{same_base as equal_bases};

/// What the cells of an array are.
#[derive(Clone, Copy, Debug, PartialEq, Eq)]
pub enum Base {
    Int,
    Bool,
}

/// Whether two bases are the same.
pub fn same_base(a: Base, b: Base) -> bool
    ensures { result ≡ equal_bases a b }
{
    a == b
}
