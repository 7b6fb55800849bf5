//! The threads of a phase in any order, as a run of the phase machine.
//!
//! A phase's workers step at one table (`count_table`) and write the cells of the chunks that they draw. The functions are empty, and their
//! contracts are laws of every interleaving of such steps.
#![tactic(auto)]

ghost use Rattle.phase_schedules.specs.Laws.{CallsGoOn, FinishedInterleavingsAgree, InterleavingsAreRuns, LeaversAgree, MachineRunsAlong};

/// A law. Whatever the order in which the threads of a phase take their steps, from the opening on, between any two of them the table's rule
/// holds, and the table and the cells stand for a state to which a run of the phase machine leads from its beginning. It is one run, which goes
/// along with the threads: each step is its event of the machine, or none.
pub fn interleavings_are_runs<T>()
    ensures stands { InterleavingsAreRuns T }
    ensures along { MachineRunsAlong T }
{}

/// A law. Interleavings leave no call out: after each of them every call at the table that its contract allows is a step, and so is what a worker
/// does with the next cell of a chunk of its own.
pub fn each_call_is_a_step<T>()
    ensures { CallsGoOn T }
{}

/// A law. Where every seat has left and every chunk is done, the cells that the workers wrote are the verdict of the cells taken one after
/// another: in order or combined, or the fault of the least position that faults. The counts are those of the opening. Every chunk is done
/// where workers draw chunks, each leaves only when it has drawn until none was left and is done with its own, and there was a worker.
pub fn finished_interleavings_agree<T>()
    ensures finished { FinishedInterleavingsAgree T }
    ensures leavers { LeaversAgree T }
{}
