//! The notes that stand for messages in mailboxes.
ghost use Rattle.std.specs.Prelude.{ℕ};

use crate::event::AnswerKind;
use match_model::{ProgrammeNo, ResidentNo};
use std::marker::Model;

/// An offer in a resident's mailbox. Contracts see only the programme's number.
#[derive(Clone, Copy, Debug, PartialEq, Eq)]
pub struct OfferNote {
    /// The programme that offers a place.
    pub programme: ProgrammeNo,
}

impl Model for OfferNote {
    ghost Value = { ℕ };

    ghost view = { λ n. n.programme };

    ghost inverse = { λ n. record { programme = n } };
}

/// An answer in a programme's mailbox. Contracts see the resident's number and the kind.
#[derive(Clone, Copy, Debug, PartialEq, Eq)]
pub struct AnswerNote {
    /// The resident who answers.
    pub resident: ResidentNo,
    /// The kind of answer.
    pub kind: AnswerKind,
}

impl Model for AnswerNote {
    ghost use Rattle.std.specs.Prelude.{ℕ};
    ghost use Rattle.exchange_core.specs.declared.event.AnswerKind.{AnswerKind};

    ghost Value = { ℕ × AnswerKind };

    ghost view = { λ n. (n.resident, n.kind) };

    ghost inverse = { λ n. record { resident = n.0; kind = n.1 } };
}

/// What an event leaves in the mailbox of its sender and in the mailbox of its receiver.
#[derive(Clone, Copy, Debug, PartialEq, Eq)]
pub struct MailLeft {
    /// Whether the message that was sent is the only one in its mailbox, so that the mailbox was
    /// empty before.
    pub receiver_was_empty: bool,
    /// Whether messages wait in the mailbox of the event's own desk.
    pub sender_has_more: bool,
}
