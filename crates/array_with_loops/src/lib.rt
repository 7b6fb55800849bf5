//! With-loops whose bounds are evaluated: which indices each generator holds, the frame, and what is made of the cells. The evaluators of sources
//! and of cores run the cells.
#![tactic(auto)]

mod bounds;
mod finish;
mod frames;
mod plans;
mod ranges;

pub use bounds::Bounds;
pub use finish::{add_cell, cell_size, combine, fits_form};
pub use frames::{Frame, IndexVector, joined_range};
pub use plans::{
    Evaluated, Plan, fold_plan, genarray_plan, index_length, modarray_plan, modarray_plan_of,
    ranges_of,
};
pub use ranges::{Axis, Range, Run};
