// The rule of the table, and the names of its steps.
ghost use Rattle.count_table.specs.Rule.{Ruled};
ghost use Rattle.count_table.specs.Plays.{Draws, Keeping, Releasing, Looking, left_of, right_of, both_of, moved_left, moved_right};
ghost use Rattle.count_table.specs.Opening.{first_view};
ghost use Rattle.count_table.specs.declared.view.View.TheVariants.{Spent};

use crate::view::View;
use atomic_table::{Join, Play, Split, TableRule};
use std::snapshot::Snapshot;

/// What the table is opened with.
#[derive(Drop)]
pub struct Opening<T> {
    pub words: Snapshot<Vec<u64>>,
    pub parts: Snapshot<Vec<T>>,
}

pub struct PhaseRule;

impl<T> TableRule<Option<T>, View<T>, Opening<T>> for PhaseRule {
    ghost holds = { λ _. Ruled };

    ghost first = { first_view };
}

pub struct Draw;

impl<T> Play<Option<T>, View<T>> for Draw {
    ghost then = { Draws };
}

pub struct Keep;

impl<T> Play<Option<T>, View<T>> for Keep {
    ghost then = { Keeping };
}

pub struct Release;

impl<T> Play<Option<T>, View<T>> for Release {
    ghost then = { Releasing };
}

pub struct Look;

impl<T> Play<Option<T>, View<T>> for Look {
    ghost then = { Looking };
}

pub struct Seating;

impl<T> Split<View<T>> for Seating {
    ghost left = { left_of };

    ghost right = { right_of };
}

pub struct Leaving;

impl<T> Join<View<T>> for Leaving {
    ghost both = { both_of };

    ghost spent = { Spent };
}

pub struct Moving;

impl<T> Split<View<T>> for Moving {
    ghost left = { moved_left };

    ghost right = { moved_right };
}
