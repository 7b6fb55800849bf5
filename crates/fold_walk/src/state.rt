//! What a walk reads, and how far it is.

ghost use Rattle.std.specs.Prelude.{◌≡◌, ◌++◌, [], ◌∷◌, OnOk};
ghost use Rattle.fold_walk.specs.declared.state.Fold.{Fold as FoldOf};
ghost use Rattle.fold_walk.specs.Walking.{state_of};

use core_ir::Var;
use parted_bodies::Progress;
use plain_facts::CalledShapes;
use sac_base::Memory;
use std::alloc::Global;

/// A pair that was folded: the place of its function, and the variables of the producer and the consumer.
#[derive(Clone, Copy, Debug, PartialEq, Eq)]
pub struct Fold {
    pub function: u32,
    pub producer: Var,
    pub consumer: Var,
}

/// What a walk over a function reads.
#[derive(Clone, Copy)]
pub struct Given<'a> {
    pub alloc: Global,
    /// The known shapes of the results of calls.
    pub called: &'a CalledShapes,
    /// The place of the function.
    pub function: u32,
    /// The greatest number that the next new variable may have: more count as want of memory.
    pub most: u64,
}

/// The next new variable, and the pairs that were folded so far.
#[derive(Drop)]
pub struct Folding {
    pub progress: Progress,
    pub folds: Vec<Fold>,
}

impl Folding {
    /// One pair more was folded.
    ///
    /// # Errors
    ///
    /// `Memory`: there is none for the entry.
    pub fn log(&mut self, function: u32, producer: Var, consumer: Var) -> Result<(), Memory>
        ensures { OnOk result (state_of self.new ≡ record (state_of self.old) {
          folds = (state_of self.old).folds ++ (record { function = function; producer = producer; consumer = consumer } ∷ []);
        }) }
    {
        self.folds.push(Fold {
            function,
            producer,
            consumer,
        })?;
        Ok(())
    }
}
