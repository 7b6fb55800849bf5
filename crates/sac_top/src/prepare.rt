//! What a run comes to before it writes.
ghost use Rattle.std.specs.Prelude.{◌≡◌, ◌≤◌, ℕ, Some, None, IfOk, OnErr, length};
ghost use Rattle.sac_io.specs.Count.{Rose};
ghost use Rattle.sac_ast.specs.Tree.{ProgramTree};
ghost use Rattle.run_eval.specs.Outcomes.{new_heap, IsCleared};
ghost use Rattle.sac_words.specs.Meaning.{Meant, texts, meant, words_mean, IsSized};
ghost use Rattle.sac_due.specs.Source.{IsProgramOf};
ghost use Rattle.sac_due.specs.Answer.{Calls, Fetches, IsAnswer};
ghost use Rattle.sac_top.specs.Traced.{numbers_of, IsRunStatus, IsProgramTraced, IsTraced};
ghost use Rattle.sac_top.specs.Steps.{ending, HasWorkers, IsSourceAnswer, MayFetchMore};
ghost use Rattle.sac_top.specs.Sessions.{IsLeft, TellsRun};

use crate::line::{Answer, answer_line};
use crate::session::{Job, Session};
use crate::source::{Judged, judge};
use buffer_heap::Heap;
use phase_workers::Gate;
use run_eval::Trace;
use sac_base::Memory;
use sac_due::Status;
use sac_io::{FetchError, Fetched, Files};
use sac_words::{Mode, Options, WordsError, read_words};
use std::alloc::Global;
use std::thread::Threads;

/// The longest source, in bytes.
const SOURCE_LIMIT: u64 = 1_048_576;

const USAGE: &str =
    "usage: sac FILE [--input FILE] [--workers N] [--chunk K] [--turns T] [--depth C] [--mode run|check|print] [--report] [--gen N]";

impl<'a, G: Gate, R: Threads + Sync> Session<'a, G, R> {
    fn answer_source<F: Files>(
        &mut self,
        options: &Options<'_>,
        source: &[u8],
        files: &mut F,
    ) -> Result<Answer, Memory>
        requires workers { HasWorkers options.now.workers }
        requires sized { IsSized options.now.input }
        requires fits { length source.now ≤ 1048576 }
        requires new { self.old.heap.now ≡ new_heap }
        ensures answer { IfOk result (λ answer. (count : ℕ)
            × IsSourceAnswer (meant options.now) source.now (F.files files.old) (numbers_of self.new.trace.now)
            (Rose (F.faults files.old) (F.faults files.new)) count (ending answer)
            × Calls (F.calls files.old) (F.calls files.new) count) }
        ensures traced { options.now.mode ≡ Mode.Run → TellsRun self.old self.new result (λ end before trace heap.
            (p : ProgramTree) × IsProgramOf source.now p × IsProgramTraced (meant options.now) p (F.files files.old) end before trace heap) }
        ensures left { IsLeft self.old self.new }
        ensures never_falls { F.faults files.old ≤ F.faults files.new }
        ensures calls { OnErr result ((count : ℕ) × MayFetchMore (meant options.now) source.now count
            × Calls (F.calls files.old) (F.calls files.new) count) }
    {
        match judge(self.alloc, source)? {
            Judged::Accepted(checked) => {
                let job = Job {
                    checked: &checked,
                    options,
                };
                self.answer_program(&job, files)
            }
            Judged::Refused(text) => Ok(Answer {
                status: Status::Source,
                text,
            }),
        }
    }

    fn answer_words<F: Files>(&mut self, words: &[&str], files: &mut F) -> Result<Answer, Memory>
        requires { self.old.heap.now ≡ new_heap }
        ensures answer { IfOk result (λ answer. (count : ℕ) × IsAnswer (texts words.now) (F.files files.old) (numbers_of self.new.trace.now)
            (Rose (F.faults files.old) (F.faults files.new)) count (ending answer) × Calls (F.calls files.old) (F.calls files.new) count) }
        ensures traced { (asked : Meant) → words_mean (texts words.now) ≡ Some asked → asked.mode ≡ Mode.Run
            → TellsRun self.old self.new result (IsTraced asked (F.files files.old)) }
        ensures left { IsLeft self.old self.new }
        ensures never_falls { F.faults files.old ≤ F.faults files.new }
        ensures calls { OnErr result (Fetches (texts words.now) (F.files files.old) Status.Memory (F.calls files.old) (F.calls files.new)) }
        ensures unfetched { words_mean (texts words.now) ≡ None → files.new ≡ files.old }
    {
        let alloc = self.alloc;
        let options = match read_words(alloc, words) {
            Ok(options) => options,
            Err(WordsError::Refused) => return answer_line(alloc, Status::Usage, USAGE),
            Err(WordsError::Memory) => return Err(Memory),
        };
        let mut source = Vec::new(alloc);
        match files.fetch(options.source, SOURCE_LIMIT, &mut source) {
            Ok(Fetched::Whole) => self.answer_source(&options, &source, files),
            Ok(Fetched::Longer) => answer_line(alloc, Status::Source, "refused source size"),
            Err(FetchError::Missing) => answer_line(alloc, Status::ReadFault, "read fault source"),
            Err(FetchError::Failed) => answer_line(alloc, Status::ReadFault, "read fault source"),
            Err(FetchError::Memory) => Err(Memory),
        }
    }
}

/// What the words and the files come to.
pub fn prepare<G: Gate, R: Threads + Sync, F: Files>(
    rt: &R,
    alloc: Global,
    words: &[&str],
    files: &mut F,
    heap: &mut Heap,
    gate: &G,
    trace: &mut Trace,
) -> Result<Answer, Memory>
    requires { heap.old ≡ new_heap }
    ensures answer { IfOk result (λ answer. (count : ℕ) × IsAnswer (texts words.now) (F.files files.old) (numbers_of trace.new)
        (Rose (F.faults files.old) (F.faults files.new)) count (ending answer) × Calls (F.calls files.old) (F.calls files.new) count) }
    ensures traced { (asked : Meant) → words_mean (texts words.now) ≡ Some asked → asked.mode ≡ Mode.Run
        → IfOk result (λ answer. IsRunStatus answer.status → IsTraced asked (F.files files.old) (ending answer) trace.old.tally trace.new heap.new) }
    ensures cleared { IsCleared heap.new }
    ensures never_falls { F.faults files.old ≤ F.faults files.new }
    ensures calls { OnErr result (Fetches (texts words.now) (F.files files.old) Status.Memory (F.calls files.old) (F.calls files.new)) }
    ensures unfetched { words_mean (texts words.now) ≡ None → files.new ≡ files.old }
{
    let mut session = Session::new(rt, alloc, gate, heap, trace);
    session.answer_words(words, files)
}
