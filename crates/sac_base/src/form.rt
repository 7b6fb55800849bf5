ghost use Rattle.std.specs.Prelude.{◌≡◌};

use crate::{Base, Shape};

/// What a type sees of an array.
#[derive(Drop)]
pub struct Form {
    pub base: Base,
    pub shape: Shape,
}

impl Form {
    /// An equal form.
    pub fn copy(&self) -> Form
        ensures { result ≡ self.now }
    {
        Form {
            base: self.base,
            shape: self.shape.copy(),
        }
    }
}
