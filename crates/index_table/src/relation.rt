//! What one variable is beside the index.

ghost use Rattle.std.specs.Prelude.{◌≡◌, IfOk};
ghost use Rattle.index_table.specs.Table.{index_of};

use sac_base::Memory;

/// What a variable is beside the index of the part around it.
#[derive(Drop)]
pub enum Relation {
    /// The index plus these numbers, one for each axis.
    Plus(Vec<i32>),
    /// A component of the index, plus a number.
    Component { axis: usize, plus: i32 },
    /// Neither is known.
    Other,
}

impl Relation {
    /// The same once more.
    ///
    /// # Errors
    ///
    /// `Memory`: there is none for the copy.
    pub fn copy(&self) -> Result<Relation, Memory>
        ensures { IfOk result (λ copy. index_of copy ≡ index_of self.now) }
    {
        match self {
            Relation::Plus(numbers) => Ok(Relation::Plus(numbers.clone()?)),
            Relation::Component { axis, plus } => Ok(Relation::Component {
                axis: *axis,
                plus: *plus,
            }),
            Relation::Other => Ok(Relation::Other),
        }
    }
}
