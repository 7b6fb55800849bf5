//! What holds for every list of events.

ghost use Rattle.std.specs.Prelude.{IsTrue};
ghost use Rattle.sac_base.specs.declared.base.Base.{Base};
ghost use Rattle.sac_base.specs.declared.op.Op.{Op};
ghost use Rattle.sac_base.specs.Verdict.{folds, fold_op, elementwise};
ghost use Rattle.wl_core.specs.Combining.{IsFoldable};
ghost use Rattle.wl_core.specs.Laws.{FactsWhenReached, EventsKeepFacts, HeldTwice, OrdersAgree, OneReason, NotBoth, PartsCombine, OrdersCombine, ChunksCombine};

/// The facts hold in every state that events lead to, and each event keeps them together. A buffer that a worker holds has a count of at least 2.
pub fn events_keep_facts()
    ensures reached { FactsWhenReached }
    ensures kept { EventsKeepFacts }
    ensures held_twice { HeldTwice }
{}

/// In a finished state, however it was reached, the counts are those of the opening, and what the state says is the verdict of the cells taken
/// one after another.
pub fn every_order_gives_one_verdict()
    ensures { OrdersAgree }
{}

/// An event is either done or refused, and it is refused for one reason.
pub fn each_event_has_one_answer()
    ensures one_reason { OneReason }
    ensures not_both { NotBoth }
{}

/// The operations of folds are associative and commutative on all whole numbers, and on lists of them element by element.
pub fn fold_operations_combine_in_any_order()
    ensures numbers { (base : Base) (op : Op) → IsTrue (folds base op) → IsFoldable (fold_op op) }
    ensures lists { (base : Base) (op : Op) → IsTrue (folds base op) → IsFoldable (elementwise (fold_op op)) }
{}

/// Values that are combined part by part, or in another order, combine to the same. So do the values of chunks that are there once each,
/// combined by whoever took them.
pub fn partial_values_combine_to_all()
    ensures parts { PartsCombine }
    ensures order { OrdersCombine }
    ensures chunks { ChunksCombine }
{}
