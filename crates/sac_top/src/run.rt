//! Running an accepted program on its input.
ghost use Rattle.std.specs.Prelude.{◌≡◌, ◌+◌, ◌%◌, ◌^◌, ◌≤◌, List, Result, IfOk, MatchOption};
ghost use Rattle.sac_base.specs.Arrays.{ArrayValue};
ghost use Rattle.sac_base.specs.Outcomes.{Ends};
ghost use Rattle.sac_io.specs.Count.{Rose};
ghost use Rattle.source_meaning.specs.Calls.{outcome};
ghost use Rattle.data_text.specs.Texts.{Refusal, text_value};
ghost use Rattle.data_text.specs.Generated.{generated_all};
ghost use Rattle.data_text.specs.Found.{Tells};
ghost use Rattle.array_ops.specs.Tells.{TellsItems};
ghost use Rattle.run_eval.specs.Outcomes.{new_heap};
ghost use Rattle.sac_words.specs.Meaning.{input_meant, file};
ghost use Rattle.sac_due.specs.Input.{main_types, main_bases};
ghost use Rattle.sac_due.specs.Due.{ended, run_on};
ghost use Rattle.sac_build.specs.Arguments.{AreArrays};
ghost use Rattle.sac_top.specs.Traced.{numbers_of, IsRunTraced, IsGivenTraced, IsProgramTraced};
ghost use Rattle.sac_top.specs.Steps.{ends_of, HasEnded, file_of, file_in, IsFileAnswer, IsRunAnswer, IsProgramAnswer};
ghost use Rattle.sac_top.specs.Sessions.{asked_of, program_of, IsReady, IsLeft, EndsWith, EndsSo, TellsRun};

use crate::arguments::{forms_of, generate_arguments, read_arguments};
use crate::line::{Answer, answer_line, refused_data};
use crate::results::answer_outcome;
use crate::session::{Job, Session};
use data_text::DataError;
use phase_workers::{Gate, Plan, run};
use run_eval::Stop;
use sac_base::{Array, Memory, Outcome};
use sac_build::compile;
use sac_due::Status;
use sac_io::{FetchError, Fetched, Files};
use sac_print::print_program;
use sac_words::{Input, Mode};
use std::thread::Threads;

/// The longest input, in bytes.
const INPUT_LIMIT: u64 = 67_108_864;

// What a run tells, where it did not want memory.
fn outcome_told(told: Result<Vec<Array>, Stop>) -> Result<Outcome, Memory>
    ensures outcome { (meant : Ends (List ArrayValue)) → TellsItems told meant → IfOk result (λ o. meant ≡ ends_of o) }
    ensures ended { IfOk result (λ o. HasEnded told) }
{
    match told {
        Ok(values) => Ok(Outcome::Values(values)),
        Err(Stop::Faulted(fault)) => Ok(Outcome::Faulted(fault)),
        Err(Stop::Memory) => Err(Memory),
    }
}

impl<'a, G: Gate, R: Threads + Sync> Session<'a, G, R> {
    // What the program comes to: it is compiled, and workers run its code.
    fn outcome_of(&mut self, job: &Job<'_>, args: Vec<Array>) -> Result<Outcome, Memory>
        requires ready { IsReady job.now }
        requires new { self.old.heap.now ≡ new_heap }
        requires arrays { AreArrays args.items }
        ensures outcome { IfOk result (λ o. ends_of o ≡ outcome (program_of job.now) args.items (asked_of job.now).caps) }
        ensures traced { IfOk result (λ o. IsRunTraced (asked_of job.now) (program_of job.now) args.items
            self.old.trace.now.tally self.new.trace.now self.new.heap.now) }
        ensures left { IsLeft self.old self.new }
    {
        let forms = forms_of(self.alloc, &args)?;
        let compiled = compile(self.alloc, job.checked, &forms)?;
        let plan = Plan {
            workers: job.options.workers,
            chunk: job.options.chunk,
            caps: job.options.caps,
        };
        let result = run(
            self.rt,
            self.alloc,
            &compiled.code,
            args,
            self.heap,
            plan,
            self.gate,
            self.trace,
        );
        self.trace.code = Some(compiled.code);
        self.trace.folded = compiled.folded;
        self.trace.scalarised = compiled.scalarised;
        outcome_told(result)
    }

    fn answer_run(&mut self, job: &Job<'_>, args: Vec<Array>) -> Result<Answer, Memory>
        requires ready { IsReady job.now }
        requires new { self.old.heap.now ≡ new_heap }
        requires arrays { AreArrays args.items }
        ensures answer { EndsWith result (ended (asked_of job.now) (numbers_of self.new.trace.now)
            (outcome (program_of job.now) args.items (asked_of job.now).caps)) }
        ensures traced { IfOk result (λ answer. IsRunTraced (asked_of job.now) (program_of job.now) args.items
            self.old.trace.now.tally self.new.trace.now self.new.heap.now) }
        ensures left { IsLeft self.old self.new }
    {
        let outcome = self.outcome_of(job, args)?;
        answer_outcome(self.alloc, &outcome, job.options, self.trace)
    }

    // What the program comes to on these arguments, or on their refusal.
    fn answer_given(
        &mut self,
        job: &Job<'_>,
        given: Result<Vec<Array>, DataError>,
    ) -> Result<Answer, Memory>
        requires ready { IsReady job.now }
        requires new { self.old.heap.now ≡ new_heap }
        requires arrays { IfOk given (λ args. AreArrays args.items) }
        ensures answer { (r : Result (List ArrayValue) Refusal) → Tells given r
            → EndsWith result (run_on (asked_of job.now) (program_of job.now) (numbers_of self.new.trace.now) r) }
        ensures traced { (r : Result (List ArrayValue) Refusal) → Tells given r
            → TellsRun self.old self.new result (IsGivenTraced (asked_of job.now) (program_of job.now) r) }
        ensures left { IsLeft self.old self.new }
    {
        match given {
            Ok(args) => self.answer_run(job, args),
            Err(DataError::Refused(code, number)) => Ok(Answer {
                status: Status::Input,
                text: refused_data(self.alloc, code, number)?,
            }),
            Err(DataError::Memory) => Err(Memory),
        }
    }

    fn answer_text(&mut self, job: &Job<'_>, text: &[u8]) -> Result<Answer, Memory>
        requires ready { IsReady job.now }
        requires new { self.old.heap.now ≡ new_heap }
        ensures answer { EndsWith result (run_on (asked_of job.now) (program_of job.now) (numbers_of self.new.trace.now)
            (text_value text.now (main_bases (program_of job.now)))) }
        ensures traced { TellsRun self.old self.new result (IsGivenTraced (asked_of job.now) (program_of job.now)
            (text_value text.now (main_bases (program_of job.now)))) }
        ensures left { IsLeft self.old self.new }
    {
        let given = read_arguments(self.alloc, job.checked, text);
        self.answer_given(job, given)
    }

    fn answer_generated(&mut self, job: &Job<'_>, n: u32) -> Result<Answer, Memory>
        requires ready { IsReady job.now }
        requires new { self.old.heap.now ≡ new_heap }
        requires sized { (1 ≤ n) × (n ≤ 4096) }
        ensures answer { EndsWith result (run_on (asked_of job.now) (program_of job.now) (numbers_of self.new.trace.now)
            (generated_all (main_types (program_of job.now)) 0 n)) }
        ensures traced { TellsRun self.old self.new result (IsGivenTraced (asked_of job.now) (program_of job.now)
            (generated_all (main_types (program_of job.now)) 0 n)) }
        ensures left { IsLeft self.old self.new }
    {
        let given = generate_arguments(self.alloc, job.checked.program(), n);
        self.answer_given(job, given)
    }

    fn answer_file<F: Files>(
        &mut self,
        job: &Job<'_>,
        name: &str,
        files: &mut F,
    ) -> Result<Answer, Memory>
        requires ready { IsReady job.now }
        requires new { self.old.heap.now ≡ new_heap }
        requires named { input_meant job.now.options.now.input ≡ file name.now }
        ensures answer { EndsSo result (IsFileAnswer (asked_of job.now) (program_of job.now) (F.files files.old) (numbers_of self.new.trace.now)
            (Rose (F.faults files.old) (F.faults files.new)) name.now) }
        ensures traced { TellsRun self.old self.new result (IsProgramTraced (asked_of job.now) (program_of job.now) (F.files files.old)) }
        ensures left { IsLeft self.old self.new }
        ensures never_falls { F.faults files.old ≤ F.faults files.new }
        ensures calls { F.calls files.new ≡ (F.calls files.old + 1) % 2 ^ 64 }
    {
        let alloc = self.alloc;
        let mut text = Vec::new(alloc);
        match files.fetch(name, INPUT_LIMIT, &mut text) {
            Ok(Fetched::Whole) => self.answer_text(job, &text),
            Ok(Fetched::Longer) => answer_line(alloc, Status::Input, "refused input size"),
            Err(FetchError::Missing) => answer_line(alloc, Status::ReadFault, "read fault input"),
            Err(FetchError::Failed) => answer_line(alloc, Status::ReadFault, "read fault input"),
            Err(FetchError::Memory) => Err(Memory),
        }
    }

    fn answer_input<F: Files>(&mut self, job: &Job<'_>, files: &mut F) -> Result<Answer, Memory>
        requires ready { IsReady job.now }
        requires new { self.old.heap.now ≡ new_heap }
        ensures answer { EndsSo result (IsRunAnswer (asked_of job.now) (program_of job.now) (F.files files.old) (numbers_of self.new.trace.now)
            (Rose (F.faults files.old) (F.faults files.new))) }
        ensures traced { TellsRun self.old self.new result (IsProgramTraced (asked_of job.now) (program_of job.now) (F.files files.old)) }
        ensures left { IsLeft self.old self.new }
        ensures never_falls { F.faults files.old ≤ F.faults files.new }
        ensures calls { MatchOption (file_of (asked_of job.now).input) (files.new ≡ files.old)
            (λ _. F.calls files.new ≡ (F.calls files.old + 1) % 2 ^ 64) }
    {
        match job.options.input {
            Input::Empty => self.answer_text(job, &[]),
            Input::File(name) => self.answer_file(job, name, files),
            Input::Generated(n) => self.answer_generated(job, n),
        }
    }

    /// What an accepted program comes to.
    pub fn answer_program<F: Files>(
        &mut self,
        job: &Job<'_>,
        files: &mut F,
    ) -> Result<Answer, Memory>
        requires ready { IsReady job.now }
        requires new { self.old.heap.now ≡ new_heap }
        ensures answer { EndsSo result (IsProgramAnswer (asked_of job.now) (program_of job.now) (F.files files.old) (numbers_of self.new.trace.now)
            (Rose (F.faults files.old) (F.faults files.new))) }
        ensures traced { job.now.options.now.mode ≡ Mode.Run
            → TellsRun self.old self.new result (IsProgramTraced (asked_of job.now) (program_of job.now) (F.files files.old)) }
        ensures left { IsLeft self.old self.new }
        ensures never_falls { F.faults files.old ≤ F.faults files.new }
        ensures calls { MatchOption (file_in (asked_of job.now).mode (asked_of job.now).input) (files.new ≡ files.old)
            (λ _. F.calls files.new ≡ (F.calls files.old + 1) % 2 ^ 64) }
    {
        match job.options.mode {
            Mode::Run => self.answer_input(job, files),
            Mode::Check => answer_line(self.alloc, Status::Done, "accepted"),
            Mode::Print => Ok(Answer {
                status: Status::Done,
                text: print_program(self.alloc, job.checked.program())?,
            }),
        }
    }
}
