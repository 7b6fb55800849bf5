//! Sets of whole numbers that repeat: stepped grids of one axis.
//!
//! An axis is cut into segments in which no grid begins or ends. In a segment each grid repeats with its step, so the segment is known
//! from its first period, which is grouped into runs of neighbours that belong to the same grids.
#![tactic(auto)]

mod axis;
mod laws;
mod pair;
mod period;
mod runs;
mod segment;

pub use axis::axis_runs;
pub use laws::{axis_count, common_period};
pub use pair::{GridError, is_too_fine, meet1, minus1};
pub use period::{COARSEST, FINEST};
pub use segment::Segment;
