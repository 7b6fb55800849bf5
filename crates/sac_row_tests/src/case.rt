//! A program to run.

use sac_base::Name;
use sac_io::MemFiles;
use std::alloc::Global;

/// The words behind the program's name, a source and an input.
#[derive(Drop)]
pub struct Case {
    pub words: String,
    source: Vec<u8>,
    input: Vec<u8>,
    /// Whether further text belongs to the input, and not to the source.
    pub fills_input: bool,
}

impl Case {
    /// A case without a source and an input.
    pub fn new(alloc: Global, words: &str) -> Option<Case> {
        Some(Case {
            words: String::from_str(alloc, words).ok()?,
            source: Vec::new(alloc),
            input: Vec::new(alloc),
            fills_input: false,
        })
    }

    /// Appends to the source or to the input.
    pub fn push(&mut self, bytes: &[u8]) -> Option<()> {
        let filled = if self.fills_input {
            &mut self.input
        } else {
            &mut self.source
        };
        filled.extend_from_slice(bytes).ok()
    }

    /// The input.
    pub fn input(&self) -> &[u8] {
        &self.input
    }

    /// The source as `p.sac` and the input as `p.in`. The fetches with the listed numbers fail.
    pub fn files(&self, alloc: Global, failing: Vec<u64>) -> Option<MemFiles> {
        files_of(alloc, &self.source, &self.input, failing)
    }

    /// The same, with the text that was filled last cut to so many bytes.
    pub fn cut_files(&self, alloc: Global, bytes: usize) -> Option<MemFiles> {
        let none = Vec::new(alloc);
        if self.fills_input {
            files_of(alloc, &self.source, self.input.get(..bytes)?, none)
        } else {
            files_of(alloc, self.source.get(..bytes)?, &self.input, none)
        }
    }
}

fn files_of(alloc: Global, source: &[u8], input: &[u8], failing: Vec<u64>) -> Option<MemFiles> {
    let mut files = Vec::new(alloc);
    for (name, text) in [("p.sac", source), ("p.in", input)] {
        let name = Name::new(String::from_str(alloc, name).ok()?)?;
        files.push((name, text.to_vec(alloc).ok()?)).ok()?;
    }
    Some(MemFiles::new(files, failing))
}
