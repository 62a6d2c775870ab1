//! Mailboxes that slip, which means that an end gives a wrong answer: its contract allows the answer, but a good
//! mailbox never gives it.
ghost use Rattle.std.specs.Prelude.{◌≡◌, ◌≢◌, ◌≤◌, [], vec_capacity, IfOk, IfErr};

use exchange_core::{AnswerNote, OfferNote};
use mailbox_rule::{MailFault, PutEnd, PutReply, RuledPut, RuledTake, TakeEnd, TakeReply, mailbox};
use match_model::{ProgrammeNo, ResidentNo};
use match_pool::Mailboxes;
use std::alloc::Global;
use std::marker::Model;
use std::mem;
use std::sync::Wait;

/// The greatest number of messages that an end gives.
const MOST_MESSAGES: usize = 64;

/// What a sending end does at one of its calls, or at this call and all later calls.
#[derive(Clone, Copy, Debug, PartialEq, Eq)]
pub(crate) enum PutSlip {
    /// The end says once that the mailbox has no room.
    Full,
    /// The end says at this call and all later calls that the mailbox has no room.
    AlwaysFull,
    /// The end says at this call and all later calls that the mailbox has no room, except at each
    /// eighth call.
    OftenFull,
    /// The end says at this call and all later calls that the receiving end is gone.
    Gone,
}

/// What a receiving end does after it gave a number of messages: at the next call, or at the next call and all
/// later calls.
#[derive(Clone, Copy, Debug, PartialEq, Eq)]
pub(crate) enum TakeSlip<M> {
    /// The end gives no message once, though a message waits.
    Nothing,
    /// The end gives no message from then on.
    AlwaysNothing,
    /// The end says from then on that the sending end is gone.
    Gone,
    /// The end gives this message, and leaves the waiting message in the mailbox.
    Gives(M),
    /// The end gives the last message a second time, and leaves the waiting message in the mailbox.
    Repeats,
}

/// A sending end that answers wrongly at one of its calls, which are counted from 0.
#[derive(Drop)]
pub(crate) struct SlippingPut<M: Copy, R: Wait + Copy> {
    end: RuledPut<M, R>,
    call_count: u32,
    slip: Option<(u32, PutSlip)>,
}

impl<M: Copy, R: Wait + Copy> Model for SlippingPut<M, R> {
    ghost use Rattle.mailbox_rule.specs.Mail.{PutSide};

    ghost Value = { PutSide M };

    ghost view = { λ put. put.end };
}

impl<M: Copy, R: Wait + Copy> PutEnd<M> for SlippingPut<M, R> {
    ghost puts = { λ end. end.puts };

    ghost may_fill = { λ _. Unit {0} };

    ghost may_go = { λ _. Unit {0} };

    fn put(&mut self, message: M) -> PutReply<M> {
        let call = self.call_count;
        self.call_count = call.saturating_add(1);
        match self.slip {
            Some((slip_call, PutSlip::Full)) if slip_call == call => PutReply::Full(message),
            Some((slip_call, PutSlip::AlwaysFull)) if slip_call <= call => PutReply::Full(message),
            Some((_, PutSlip::OftenFull)) if call % 8 < 7 => PutReply::Full(message),
            Some((slip_call, PutSlip::Gone)) if slip_call <= call => PutReply::Gone(message),
            _ => self.end.put(message),
        }
    }
}

/// A receiving end that answers wrongly after it has given this number of messages.
#[derive(Drop)]
pub(crate) struct SlippingTake<M: Copy, R: Wait + Copy> {
    end: RuledTake<M, R>,
    given_messages: Vec<M>,
    has_slipped: bool,
    slip: Option<(u32, TakeSlip<M>)>,
    ghost reserved: { 64 ≤ vec_capacity given_messages },
}

impl<M: Copy, R: Wait + Copy> Model for SlippingTake<M, R> {
    ghost use Rattle.std.specs.Prelude.{List};

    ghost Value = { List M };

    ghost view = { λ take. take.given_messages.items };
}

impl<M: Copy, R: Wait + Copy> TakeEnd<M> for SlippingTake<M, R> {
    ghost taken = { λ messages. messages };

    ghost may_lack = { λ _. Unit {0} };

    ghost may_go = { λ _. Unit {0} };

    fn take(&mut self) -> TakeReply<M> {
        if self.given_messages.len() >= MOST_MESSAGES {
            return TakeReply::Nothing;
        }
        let reply = match self.slip {
            Some((slip_count, slip)) if slip_count as usize <= self.given_messages.len() =>
                self.slipped_reply(slip),
            _ => self.end.take(),
        };
        match reply {
            TakeReply::Got(message) => {
                self.given_messages.push_reserved(message);
                TakeReply::Got(message)
            }
            other_reply => other_reply,
        }
    }
}

impl<M: Copy, R: Wait + Copy> SlippingTake<M, R> {
    // The wrong answer to a call that takes a message. Most kinds of wrong answer come once, and two kinds come
    // again and again.
    fn slipped_reply(&mut self, slip: TakeSlip<M>) -> TakeReply<M>
        ensures { self.new ≡ self.old }
    {
        let has_slipped = mem::replace(&mut self.has_slipped, true);
        match slip {
            TakeSlip::AlwaysNothing => TakeReply::Nothing,
            TakeSlip::Gone => TakeReply::Gone,
            _ if has_slipped => self.end.take(),
            TakeSlip::Nothing => TakeReply::Nothing,
            TakeSlip::Gives(message) => TakeReply::Got(message),
            TakeSlip::Repeats => match self.given_messages.last() {
                Some(message) => TakeReply::Got(*message),
                None => TakeReply::Nothing,
            },
        }
    }
}

/// Whose mailbox gives a wrong answer, at which end, at which call, and which answer.
#[derive(Clone, Copy, Debug, PartialEq, Eq)]
pub(crate) enum Slip {
    /// The wrong answer comes when an offer is put for this resident.
    Offer(ResidentNo, u32, PutSlip),
    /// The wrong answer comes when this resident takes an offer.
    Take(ResidentNo, u32, TakeSlip<OfferNote>),
    /// The wrong answer comes when an answer is put for this programme.
    Answer(ProgrammeNo, u32, PutSlip),
    /// The wrong answer comes when this programme takes an answer out of its mailbox.
    Hear(ProgrammeNo, u32, TakeSlip<AnswerNote>),
}

/// Mailboxes of which one or two give wrong answers.
#[derive(Clone, Copy, Debug)]
pub(crate) struct Slipping<R: Wait + Copy> {
    pub(crate) rt: R,
    pub(crate) slips: [Slip; 2],
}

// The two ends of a mailbox: the sending end with this slip for puts, and the receiving end with
// this slip for takes.
fn ends_of<M: Copy + Eq, R: Wait + Copy>(
    rt: R,
    alloc: Global,
    room: u32,
    put_slip: Option<(u32, PutSlip)>,
    take_slip: Option<(u32, TakeSlip<M>)>,
) -> Result<(SlippingPut<M, R>, SlippingTake<M, R>), MailFault>
    requires { room ≢ 0 }
    ensures made { IfOk result (λ ends. (ends.0.room ≡ room) × (ends.0.puts ≡ []) × (ends.1 ≡ [])) }
    ensures memory { IfErr result (λ fault. fault ≡ MailFault.Memory) }
{
    let (put, take) = mailbox(alloc, rt, room)?;
    let put = SlippingPut {
        end: put,
        call_count: 0,
        slip: put_slip,
    };
    let take = SlippingTake {
        end: take,
        given_messages: Vec::with_capacity(alloc, MOST_MESSAGES)?,
        has_slipped: false,
        slip: take_slip,
    };
    Ok((put, take))
}

impl<R: Wait + Copy + Send> Mailboxes for Slipping<R> {
    type OfferPut = SlippingPut<OfferNote, R>;

    type OfferTake = SlippingTake<OfferNote, R>;

    type AnswerPut = SlippingPut<AnswerNote, R>;

    type AnswerTake = SlippingTake<AnswerNote, R>;

    const PATIENCE: u32 = 50;

    ghost offer_room = { λ end. end.room };

    ghost answer_room = { λ end. end.room };

    fn open_offers(
        &self,
        alloc: Global,
        resident: ResidentNo,
        room: u32,
    ) -> Result<(SlippingPut<OfferNote, R>, SlippingTake<OfferNote, R>), MailFault> {
        let (mut put_slip, mut take_slip) = (None, None);
        for slip in &self.slips {
            match slip {
                Slip::Offer(slip_resident, call, kind) if *slip_resident == resident => put_slip =
                    Some((*call, *kind)),
                Slip::Take(slip_resident, call, kind) if *slip_resident == resident => take_slip =
                    Some((*call, *kind)),
                _ => {}
            }
        }
        ends_of(self.rt, alloc, room, put_slip, take_slip)
    }

    fn open_answers(
        &self,
        alloc: Global,
        programme: ProgrammeNo,
        room: u32,
    ) -> Result<(SlippingPut<AnswerNote, R>, SlippingTake<AnswerNote, R>), MailFault> {
        let (mut put_slip, mut take_slip) = (None, None);
        for slip in &self.slips {
            match slip {
                Slip::Answer(slip_programme, call, kind) if *slip_programme == programme =>
                    put_slip = Some((*call, *kind)),
                Slip::Hear(slip_programme, call, kind) if *slip_programme == programme =>
                    take_slip = Some((*call, *kind)),
                _ => {}
            }
        }
        ends_of(self.rt, alloc, room, put_slip, take_slip)
    }
}
