//! What the words ask for.

use sac_base::Caps;

/// What is done with a source.
#[derive(Clone, Copy, Debug, PartialEq, Eq)]
pub enum Mode {
    /// The program is run on its input.
    Run,
    /// The source is only checked.
    Check,
    /// The program is printed in its canonical text.
    Print,
}

/// Where the input comes from.
#[derive(Clone, Copy, Debug)]
pub enum Input<'a> {
    /// The empty text.
    Empty,
    /// The file of this name.
    File(&'a str),
    /// Arrays that are generated from this number.
    Generated(u32),
}

/// What the words ask for. An option that is not given has its default.
#[derive(Clone, Copy, Debug)]
pub struct Options<'a> {
    /// The name of the source.
    pub source: &'a str,
    pub input: Input<'a>,
    /// How many workers run.
    pub workers: u32,
    /// How many positions a chunk has, where that is given.
    pub chunk: Option<u64>,
    pub caps: Caps,
    pub mode: Mode,
    /// Whether the report follows the results.
    pub report: bool,
}

/// Why words ask for nothing.
#[derive(Clone, Copy, Debug, PartialEq, Eq)]
pub enum WordsError {
    /// The words are refused.
    Refused,
    /// No memory was found.
    Memory,
}
