//! Which programs are accepted: no rule is violated. A program is else refused at the first site in the text, with the least rule that is violated there.
#![tactic(auto)]

mod checked;
mod program;

pub use check_rules::code::CheckCode;
pub use checked::Checked;
pub use program::{CheckError, check};
