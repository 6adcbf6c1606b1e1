//! The rule of the turn's table, and its steps.
ghost use Rattle.std.specs.Prelude.{Option};
ghost use Rattle.atomic_table.specs.Table.{State};
ghost use Rattle.turn_lock.specs.declared.view.View.{View};
ghost use Rattle.turn_lock.specs.Rule.{Kept, AreAllApart};

use crate::journaled::Journaled;
use crate::view::View;
use atomic_table::{Join, Play, Split, TableRule};
use std::marker::PhantomData;
use std::snapshot::Snapshot;

// Word 0 is the turn, and slot 0 has the state. The key is the state as it was when the table was made.
pub struct TurnRule<S> {
    state: PhantomData<S>,
}

impl<S: Journaled> TableRule<Option<S>, View<S::Entry, S::Fixed>, Snapshot<S>> for TurnRule<S> {
    ghost use Rattle.turn_lock.specs.Rule.{Kept};
    ghost use Rattle.turn_lock.specs.Views.{first_view};

    ghost holds = { λ key. Kept S.history S.fixed S.by (S.fixed key.value) };

    ghost first = { λ key. first_view (S.fixed key.value) };
}

// The word goes from 0 to 1.
pub(crate) struct Grab;

impl<S: Journaled> Play<Option<S>, View<S::Entry, S::Fixed>> for Grab {
    ghost use Rattle.turn_lock.specs.Rule.{Grabs};

    ghost then = { Grabs S.history S.fixed };
}

// The word is read, and nothing changes.
pub(crate) struct Look;

impl<S, E, F> Play<Option<S>, View<E, F>> for Look {
    ghost use Rattle.turn_lock.specs.Rule.{Looks};

    ghost then = { Looks };
}

// The word becomes 0.
pub(crate) struct LetGo;

impl<S: Journaled> Play<Option<S>, View<S::Entry, S::Fixed>> for LetGo {
    ghost use Rattle.turn_lock.specs.Rule.{LetsGo};

    ghost then = { LetsGo S.history S.by };
}

pub(crate) struct Halve;

impl<E, F> Split<View<E, F>> for Halve {
    ghost use Rattle.turn_lock.specs.Views.{halved, beside};

    ghost left = { halved };

    ghost right = { beside };
}

pub(crate) struct Merge;

impl<E, F> Join<View<E, F>> for Merge {
    ghost use Rattle.turn_lock.specs.Views.{joined, spent_view};

    ghost both = { joined };

    ghost spent = { spent_view };
}

/// No entry is two passes': wherever the rule of a turn holds, the places that two passes have in
/// the history are apart.
pub fn places_are_apart<S: Journaled>()
    ensures { (given : S.Fixed) (s : State (Option S) (View S.Entry S.Fixed))
        → Kept S.history S.fixed S.by given s → AreAllApart s.views }
{}
