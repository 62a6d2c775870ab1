//! The mailboxes of a run: their ends, and how a mailbox is opened.
ghost use Rattle.std.specs.Prelude.{◌≡◌, ◌≢◌, ℕ, [], IfOk, IfErr};

use exchange_core::{AnswerNote, OfferNote};
use mailbox_rule::{MailFault, PutEnd, RuledPut, RuledTake, TakeEnd, mailbox};
use match_model::{ProgrammeNo, ResidentNo};
use std::alloc::Global;
use std::sync::Wait;

/// The mailboxes of a run: the two ends of a mailbox for offers, the two ends of a mailbox for answers, and how a
/// mailbox is opened. A new mailbox has the room that was asked for. No message was put into it or taken from it.
pub trait Mailboxes {
    /// The end into which a resident's offers are put.
    type OfferPut: PutEnd<OfferNote> + Drop + Send;

    /// The end from which a resident takes offers.
    type OfferTake: TakeEnd<OfferNote> + Drop + Send;

    /// The end into which a programme's answers are put.
    type AnswerPut: PutEnd<AnswerNote> + Drop + Send;

    /// The end from which a programme takes answers.
    type AnswerTake: TakeEnd<AnswerNote> + Drop + Send;

    // How many offers fit into a mailbox for offers.
    ghost offer_room: { Self.OfferPut → ℕ };

    // How many answers fit into a mailbox for answers.
    ghost answer_room: { Self.AnswerPut → ℕ };

    /// How many misses in a row a worker accepts at one desk. A miss is a mailbox without a message, or without room,
    /// although the journal says otherwise. After more misses the run ends with the fault `Torn`.
    const PATIENCE: u32;

    /// Opens this resident's mailbox, with room for `room` offers, which is at least one. The only fault is `Memory`.
    fn open_offers(
        &self,
        alloc: Global,
        resident: ResidentNo,
        room: u32,
    ) -> Result<(Self::OfferPut, Self::OfferTake), MailFault>
        requires { room ≢ 0 }
        ensures fresh { IfOk result (λ ends. (Self.OfferPut.puts ends.0 ≡ [])
            × (Self.OfferTake.taken ends.1 ≡ [])) }
        ensures room { IfOk result (λ ends. offer_room ends.0 ≡ room) }
        ensures memory { IfErr result (λ fault. fault ≡ MailFault.Memory) };

    /// Opens this programme's mailbox, with room for `room` answers, which is at least one. The only fault is `Memory`.
    fn open_answers(
        &self,
        alloc: Global,
        programme: ProgrammeNo,
        room: u32,
    ) -> Result<(Self::AnswerPut, Self::AnswerTake), MailFault>
        requires { room ≢ 0 }
        ensures fresh { IfOk result (λ ends. (Self.AnswerPut.puts ends.0 ≡ [])
            × (Self.AnswerTake.taken ends.1 ≡ [])) }
        ensures room { IfOk result (λ ends. answer_room ends.0 ≡ room) }
        ensures memory { IfErr result (λ fault. fault ≡ MailFault.Memory) };
}

/// Mailboxes with this rule: the messages that were taken out of a mailbox are the first of those that were put into
/// it.
#[derive(Clone, Copy, Debug)]
pub struct RuledMailboxes<R: Wait + Copy>(pub R);

impl<R: Wait + Copy + Send> Mailboxes for RuledMailboxes<R> {
    type OfferPut = RuledPut<OfferNote, R>;

    type OfferTake = RuledTake<OfferNote, R>;

    type AnswerPut = RuledPut<AnswerNote, R>;

    type AnswerTake = RuledTake<AnswerNote, R>;

    const PATIENCE: u32 = 1_000_000;

    ghost offer_room = { λ end. end.room };

    ghost answer_room = { λ end. end.room };

    fn open_offers(
        &self,
        alloc: Global,
        _resident: ResidentNo,
        room: u32,
    ) -> Result<(RuledPut<OfferNote, R>, RuledTake<OfferNote, R>), MailFault> {
        mailbox(alloc, self.0, room)
    }

    fn open_answers(
        &self,
        alloc: Global,
        _programme: ProgrammeNo,
        room: u32,
    ) -> Result<(RuledPut<AnswerNote, R>, RuledTake<AnswerNote, R>), MailFault> {
        mailbox(alloc, self.0, room)
    }
}
