//! What is left of scalarisable loops.

ghost use Rattle.scalarise.specs.Axes.{AxesSuffice};

/// Law: where no grid without members of a well-formed core has more axes than its loop's frame, and no loop can be merged, none is scalarisable.
pub fn axes_suffice()
    ensures { AxesSuffice }
{}
