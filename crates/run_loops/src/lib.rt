//! What the evaluator of counted code stands on: the state of a run, loops over cells whose checks have passed, where their cells
//! come from, and results that are not finished.
#![tactic(auto)]

mod bindings;
mod bounds;
mod cell_loop;
mod cells;
mod folds;
mod holders;
mod in_place;
mod levels;
mod phases;
mod state;

pub use bindings::{bind_all, bind_index, bind_params, first_of, push_values, value_at};
pub use bounds::{all_bounds, is_in_order, parted_plan, read_shape};
pub use cell_loop::{
    CellBody, CellLoop, CellSource, LoopResult, body_at, body_of_gen, body_of_part, body_of_place,
};
pub use cells::{Background, begin, count, count_elements, finish, formed, put_cell};
pub use folds::{Sum, add_cell, begin_fold, finish_fold, start};
pub use in_place::{begin_in_place, has_shape, is_written_over, put_in_place};
pub use levels::{condition, deeper, levels_of};
pub use phases::{Never, Outside, Phases};
pub use state::{Context, CountedCode, State, Turn};
