//! Whether a grid that is moved lies inside of another.

mod inside;

pub use inside::{first_number, has_members, is_within, other_numbers};
