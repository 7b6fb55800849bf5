//! The text of an outcome.
ghost use Rattle.std.specs.Prelude.{◌≡◌, ◌++◌, IfOk, OnOk, flat_map};
ghost use Rattle.data_text.specs.Printed.{Appends};
ghost use Rattle.sac_words.specs.Meaning.{meant, input_meant};
ghost use Rattle.sac_due.specs.Status.{fault_status};
ghost use Rattle.sac_due.specs.Report.{numbered, report_lines, report_text};
ghost use Rattle.sac_due.specs.Due.{result_line, ended};
ghost use Rattle.sac_top.specs.Traced.{numbers_of};
ghost use Rattle.sac_top.specs.Steps.{ending, ends_of};

use crate::line::{Answer, placed, push};
use data_text::{print_array, print_summary};
use itoa::Buffer;
use run_eval::Trace;
use sac_base::{Array, FaultKind, Memory, Outcome};
use sac_due::Status;
use sac_words::{Input, Options};
use std::alloc::Global;

// A result's line, or its summary where the input was generated.
fn push_result(text: &mut Vec<u8>, value: &Array, input: Input) -> Result<(), Memory>
    ensures { Appends text.old.items text.new.items result (result_line (input_meant input.entry) value.now) }
{
    match input {
        Input::Generated(_) => print_summary(value, text),
        Input::Empty | Input::File(_) => print_array(value, text),
    }
}

fn result_lines(alloc: Global, values: &[Array], input: Input) -> Result<Vec<u8>, Memory>
    ensures { IfOk result (λ text. text.items ≡ flat_map (result_line (input_meant input.entry)) values.now) }
{
    let mut text = Vec::new(alloc);
    for value in values {
        push_result(&mut text, value, input)?;
    }
    Ok(text)
}

fn push_number(text: &mut Vec<u8>, word: &str, number: u64) -> Result<(), Memory>
    ensures { OnOk result (text.new.items ≡ text.old.items ++ numbered word.now number) }
{
    push(text, word)?;
    push(text, Buffer::new().format(number))?;
    push(text, "\n")
}

fn push_report(text: &mut Vec<u8>, trace: &Trace) -> Result<(), Memory>
    ensures { OnOk result (text.new.items ≡ text.old.items ++ report_lines (numbers_of trace.now)) }
{
    push_number(text, "folded ", trace.folded)?;
    push_number(text, "scalarised ", trace.scalarised)?;
    push_number(text, "taken ", trace.taken)?;
    push_number(text, "given ", trace.given)?;
    push_number(text, "reused ", trace.reused)?;
    push_number(text, "phases ", trace.phases)
}

fn push_report_if(text: &mut Vec<u8>, asked: bool, trace: &Trace) -> Result<(), Memory>
    ensures { OnOk result (text.new.items ≡ text.old.items ++ report_text asked (numbers_of trace.now)) }
{
    if asked {
        push_report(text, trace)
    } else {
        Ok(())
    }
}

// The results' lines, and the report where it is asked for.
fn whole_text(
    alloc: Global,
    values: &[Array],
    options: &Options,
    trace: &Trace,
) -> Result<Vec<u8>, Memory>
    ensures { IfOk result (λ text. text.items ≡
        flat_map (result_line (input_meant options.now.input)) values.now ++ report_text options.now.report (numbers_of trace.now)) }
{
    let mut text = result_lines(alloc, values, options.input)?;
    push_report_if(&mut text, options.report, trace)?;
    Ok(text)
}

fn fault_status(kind: FaultKind) -> Status
    ensures { result ≡ fault_status kind }
{
    match kind {
        FaultKind::F9 | FaultKind::F10 => Status::Limit,
        _ => Status::Faulted,
    }
}

/// What is written for an outcome, with the numbers of the trace.
pub fn answer_outcome(
    alloc: Global,
    outcome: &Outcome,
    options: &Options,
    trace: &Trace,
) -> Result<Answer, Memory>
    ensures { IfOk result (λ answer. ending answer ≡ ended (meant options.now) (numbers_of trace.now) (ends_of outcome.now)) }
{
    match outcome {
        Outcome::Values(values) => Ok(Answer {
            status: Status::Done,
            text: whole_text(alloc, values, options, trace)?,
        }),
        Outcome::Faulted(fault) => Ok(Answer {
            status: fault_status(fault.kind),
            text: placed(alloc, "fault ", fault.kind.code(), fault.site)?,
        }),
    }
}
