// What phases answer, beside the machine of a parallel phase.
ghost use Rattle.std.specs.Prelude.{◌≡◌, ℕ, ◌<◌, ◌≤◌, ◌⊎◌, ℤ, List, Option, Some, Ok, Err};
ghost use Rattle.sac_base.specs.declared.base.Base.{Base};
ghost use Rattle.sac_base.specs.declared.faults.Fault.{Fault};
ghost use Rattle.sac_base.specs.declared.op.Op.{Op};
ghost use Rattle.wl_core.specs.declared.setup.Job.TheVariants.{Write as Store, Fold};
ghost use Rattle.wl_core.specs.Facts.{Settled};
ghost use Rattle.wl_core.specs.Machine.{SetupValue, StateValue, TakesBase, Cells, Partial, Faulted, Finished, HoldsNothing, IsSetup};
ghost use Rattle.wl_core.specs.Machine.{Reached, both, combine, sequential};
ghost use Rattle.sac_base.specs.declared.stop.Stop.TheVariants.{Faulted as FaultedAt};
ghost use Rattle.phase_team.specs.Endings.{IsArray, IsCombined};
ghost use Rattle.phase_team.specs.Schedules.{AllThrough, CanAct, IsThrough};

/// A law. What a phase answers is the verdict of the machine of a parallel phase for the same cells, which is that of every
/// finished list of its events: the cells joined, or the fault of the least position that faults. A fold combines the
/// machine's verdict with the neutral value, once.
pub fn answers_are_verdicts()
    ensures cells { (u : SetupValue) (buffer : List ℤ) → u.job ≡ Store → IsArray u.cells buffer (Ok tt) → sequential u ≡ Cells buffer }
    ensures array_fault { (u : SetupValue) (buffer : List ℤ) (fault : Fault) → IsArray u.cells buffer (Err (FaultedAt fault)) → sequential u ≡ Faulted fault }
    ensures combined { (u : SetupValue) (base : Base) (op : Op) (neutral : List ℤ) (value : List ℤ) → u.job ≡ Fold base op
        → TakesBase u.job → IsCombined op u.cells neutral value (Ok tt)
        → (partial : Option (List ℤ)) × (sequential u ≡ Partial partial) × (Some value ≡ both (combine op) (Some neutral) partial) }
    ensures fold_fault { (u : SetupValue) (op : Op) (neutral : List ℤ) (value : List ℤ) (fault : Fault)
        → IsCombined op u.cells neutral value (Err (FaultedAt fault)) → sequential u ≡ Faulted fault }
{}

/// A law. In each state of the machine of a parallel phase a worker can act, that is draw a chunk, write its next cell or stop, or it is
/// through: it works on no chunk, and none is left or one has stopped. So in whatever order the workers act, what they do is a run of the machine.
/// Once all are through and hold no buffer, the phase is finished, so that its verdict is that of the cells taken one after another.
pub fn each_schedule_is_a_run()
    ensures acts { (u : SetupValue) (s : StateValue) (w : ℕ) → w < u.workers → CanAct u s w ⊎ IsThrough u s w }
    ensures ends { (u : SetupValue) (s : StateValue) → IsSetup u → Reached u s → 1 ≤ u.workers → AllThrough u s → HoldsNothing u s
        → Finished u s × Settled u s }
{}
