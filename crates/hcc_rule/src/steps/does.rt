//! What steps, splits and joins do to what their seats know.
use crate::key::Tag;
use crate::view::{Logged, View};
use atomic_table::{Join, Play, Split};
use std::marker::Brand;

/// What a step shows of its seat's view, and which event of the protocol it is. Each call picks it;
/// it is only for the proofs.
pub trait Does<V> {
    ghost use Rattle.std.specs.Prelude.{ℕ, Option};
    ghost use Rattle.atomic_table.specs.Table.{Me, Step};
    ghost use Rattle.hcc_rule.specs.declared.view.Done.{Done};

    // Of the step, the seat before, the word found, the seat after and the event.
    ghost then: { Step (Unit {0}) → Me (Unit {0}) V → ℕ → Me (Unit {0}) V → Option Done → Type 0 };
}

impl<T> Does<View<T>> for Brand {
    ghost use Rattle.hcc_rule.specs.Told.{nothing};

    ghost then = { nothing };
}

/// The same, beside the list of the seat's steps, which grows by this one, and the shard's history.
/// The functions of `words.rt` pick it.
impl<T> Play<(), Logged<T>> for Brand {
    ghost use Rattle.hcc_rule.specs.Logs.{silent};

    ghost then = { silent };
}

/// How a view is split: the new seat stands for the first of the other clients.
pub struct Start;

impl<T: Tag> Split<Logged<T>> for Start {
    ghost use Rattle.hcc_rule.specs.PassedLogs.{left_logged, right_logged};

    ghost left = { left_logged };

    ghost right = { right_logged };
}

/// How a witness is split off: it is told all that the seat knows of the history.
pub struct Tell;

impl<T: Tag> Split<Logged<T>> for Tell {
    ghost use Rattle.hcc_rule.specs.PassedLogs.{giver_logged, given_logged};

    ghost left = { giver_logged };

    ghost right = { given_logged };
}

/// How a witness is heard: the seat was told what the witness was.
pub struct Hear;

impl<T: Tag> Join<Logged<T>> for Hear {
    ghost use Rattle.hcc_rule.specs.PassedLogs.{told_logged, spent_logged};

    ghost both = { told_logged };

    ghost spent = { spent_logged };
}

/// How two views are joined: the client of the second ends.
pub struct End;

impl<T: Tag> Join<Logged<T>> for End {
    ghost use Rattle.hcc_rule.specs.PassedLogs.{joined_logged, spent_logged};

    ghost both = { joined_logged };

    ghost spent = { spent_logged };
}
