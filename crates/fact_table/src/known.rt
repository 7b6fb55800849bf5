//! What is known of one variable.

ghost use Rattle.std.specs.Prelude.{◌≡◌, IfOk};
ghost use Rattle.core_facts.specs.Facts.{unknown, shape_fact};
ghost use Rattle.fact_table.specs.Table.{fact_of};

use sac_base::{Array, Memory, Shape, copy_array};

/// What is known of a variable before a run.
#[derive(Drop)]
pub struct Known {
    /// Its shape, where that is known.
    pub shape: Option<Shape>,
    /// Its value, where the variable is literal.
    pub literal: Option<Array>,
    /// Whether it is bound by a constant.
    pub constant: bool,
}

impl Known {
    /// Nothing is known.
    pub fn nothing() -> Known
        ensures { fact_of result ≡ unknown }
    {
        Known {
            shape: None,
            literal: None,
            constant: false,
        }
    }

    /// A shape alone, if it is known.
    pub fn of_shape(shape: Option<Shape>) -> Known
        ensures { fact_of result ≡ shape_fact shape }
    {
        Known {
            shape,
            literal: None,
            constant: false,
        }
    }

    /// The same once more.
    ///
    /// # Errors
    ///
    /// `Memory`: there is none for the copy.
    pub fn copy(&self) -> Result<Known, Memory>
        ensures { IfOk result (λ copy. fact_of copy ≡ fact_of self.now) }
    {
        let shape = copy_shape(&self.shape);
        let literal = copy_literal(&self.literal)?;
        Ok(Known {
            shape,
            literal,
            constant: self.constant,
        })
    }
}

fn copy_shape(shape: &Option<Shape>) -> Option<Shape>
    ensures { result ≡ shape.now }
{
    match shape {
        Some(shape) => Some(shape.copy()),
        None => None,
    }
}

fn copy_literal(literal: &Option<Array>) -> Result<Option<Array>, Memory>
    ensures { IfOk result (λ copy. copy ≡ literal.now) }
{
    match literal {
        Some(array) => Ok(Some(copy_array(array)?)),
        None => Ok(None),
    }
}
