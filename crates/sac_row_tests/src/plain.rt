//! What a program means, run plainly.

use data_text::{print_array, read_arrays};
use sac_base::{Array, Caps, Fault, Outcome};
use sac_lex::lex;
use sac_parse::parse;
use std::alloc::Global;
use type_check::check;
use value_meaning::plain_run;

/// The longest source, in bytes.
const SOURCE_LIMIT: usize = 1_048_576;

/// The limits where no word gives others.
const CAPS: Caps = Caps {
    turns: 1_000_000,
    depth: 100,
};

fn result_lines(alloc: Global, values: &[Array]) -> Option<Vec<u8>> {
    let mut text = Vec::new(alloc);
    for value in values {
        print_array(value, &mut text).ok()?;
    }
    Some(text)
}

fn fault_line(alloc: Global, fault: Fault) -> Option<Vec<u8>> {
    let code = fault.kind.code();
    let line = format!(in alloc; "fault {code} at {}:{}\n", fault.site.line, fault.site.col).ok()?;
    line.as_bytes().to_vec(alloc).ok()
}

/// The text of what an accepted source means on an input, or nothing where either is refused.
pub fn plain_text(alloc: Global, source: &[u8], input: &[u8]) -> Option<Vec<u8>> {
    if source.len() > SOURCE_LIMIT {
        return None;
    }
    let tokens = lex(alloc, source).ok()?;
    let program = parse(alloc, &tokens).ok()?;
    let checked = check(alloc, program).ok()?;
    let args = read_arrays(alloc, input, checked.main_bases()).ok()?;
    match plain_run(alloc, checked.program(), &args, CAPS).ok()? {
        Outcome::Values(values) => result_lines(alloc, &values),
        Outcome::Faulted(fault) => fault_line(alloc, fault),
    }
}
