//! The rule of a mailbox: the messages put are the messages taken, followed by the waiting messages, and at most
//! `capacity` messages wait. No value of these types is ever made; they describe what a proof knows.
ghost use Rattle.std.specs.Prelude.{◌≡◌, ◌≤◌, true, false, [], ◌∷◌, ◌++◌, length};
ghost use Rattle.mailbox_rule.specs.Rule.{known, IsInOrder};

use crossbeam_channel::protocol::{Join, Lesson, Outcome, Protocol, Split};
use std::collections::LinkedList;
use std::marker::Brand;

/// What a proof knows of one end of the channel: whether this end may put, whether it may take, the capacity, and
/// the messages that it put and took.
pub struct Known<M> {
    pub may_put: bool,
    pub may_take: bool,
    pub room: u64,
    pub puts: LinkedList<M>,
    pub taken: LinkedList<M>,
}

// The rule of a mailbox in which messages keep their order.
pub struct InOrder;

impl<M> Protocol<M, Known<M>> for InOrder {
    ghost use Rattle.std.specs.Prelude.{true, []};
    ghost use Rattle.mailbox_rule.specs.Rule.{known, IsInOrder};

    ghost holds = { IsInOrder };

    ghost first = { known true true 0 [] [] };
}

// How the knowledge of a new channel is split into that for the sending end and that for the receiving end. The
// caller chooses the capacity.
impl<M> Split<Known<M>> for Brand {
    ghost use Rattle.std.specs.Prelude.{true, false, []};
    ghost use Rattle.mailbox_rule.specs.Rule.{known};

    ghost left = { λ hand. known true false 0 hand.puts [] };

    ghost right = { λ hand. known false true 0 [] hand.taken };
}

// How the knowledge for the receiving end is joined with that for the sending end, and split off again.
pub struct Sides;

impl<M> Split<Known<M>> for Sides {
    ghost use Rattle.std.specs.Prelude.{true, false, []};
    ghost use Rattle.mailbox_rule.specs.Rule.{known};

    ghost left = { λ hand. known true false hand.room hand.puts [] };

    ghost right = { λ hand. known false true 0 [] hand.taken };
}

impl<M> Join<Known<M>> for Sides {
    ghost use Rattle.std.specs.Prelude.{true, false, []};
    ghost use Rattle.mailbox_rule.specs.Rule.{known};

    ghost both = { λ put_hand take_hand.
        known true true put_hand.room put_hand.puts take_hand.taken };

    ghost spent = { known false false 0 [] [] };
}

// A message that is put stands behind all waiting messages.
pub struct Puts;

impl<M> Outcome<M, Known<M>> for Puts {
    ghost then = { λ hand message next_hand. next_hand
        ≡ known hand.may_put hand.may_take hand.room (hand.puts ++ message ∷ []) hand.taken };
}

impl<M> Lesson<M, Known<M>> for Puts {
    ghost fact = { λ hand waiting. length waiting ≤ length hand.puts };
}

// A message that is taken stood in front of all waiting messages.
pub struct Takes;

impl<M> Outcome<M, Known<M>> for Takes {
    ghost then = { λ hand message next_hand. next_hand
        ≡ known hand.may_put hand.may_take hand.room hand.puts (hand.taken ++ message ∷ []) };
}

impl<M> Lesson<M, Known<M>> for Takes {
    ghost fact = { λ hand waiting. Unit {0} };
}

// What is known about the waiting messages if the messages put and the messages taken are both known.
pub struct Whole;

impl<M> Lesson<M, Known<M>> for Whole {
    ghost fact = { λ hand waiting.
        (hand.puts ≡ hand.taken ++ waiting) × (length waiting ≤ hand.room) };
}
