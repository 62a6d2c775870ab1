//! What the ledger's lock protects: the ledger, and the desks that wait for room in a mailbox.
ghost use Rattle.std.specs.Prelude.{◌≡◌, ◌<◌, None, Some, length};
ghost use Rattle.desk_scheduler.specs.Waits.{linked_at};
ghost use Rattle.exchange_core.specs.Mail.{answers_wait, offers_wait};
ghost use Rattle.exchange_core.specs.Shown.{IsCapacity};
ghost use Rattle.match_pool.specs.Done.{IsReceipt};
ghost use Rattle.match_pool.specs.Exchange.{IfDesk, IfMade, IsRefusedForGood, HasEvent, number_of_desk, number_of_programme, refused_put, refused_receipt};
ghost use Rattle.offer_ledger.specs.Ledger.{IsRefused};

use crate::mailboxes::Mailboxes;
use desk_scheduler::WaitQueues;
use exchange_core::{AnswerKind, Desk, Event, Refused};
use match_model::{Instance, ProgrammeNo, ResidentNo};
use offer_ledger::{CloseToken, EntryRefused, ExchangeIdentity, Ledger, PutRefusal, Tally};
use std::alloc::{AllocError, Global};
use std::marker::Model;

/// The ledger, the desks that wait for room, and the receipt that the core refused, if the core refused a receipt.
/// After such a refusal the ledger accepts no event, so that the receipt stays out of step with the journal.
pub(crate) struct Exchange<J: ExchangeIdentity, M: Mailboxes> {
    ledger: Ledger<J, M::OfferPut, M::AnswerPut>,
    wait_queues: WaitQueues,
    out_of_step: Option<Event>,
}

impl<J: ExchangeIdentity, M: Mailboxes> Model for Exchange<J, M> {
    ghost use Rattle.match_pool.specs.Exchange.{Exchanged, IsRefusedForGood};

    ghost Value = { Exchanged M.OfferPut M.AnswerPut };

    ghost view = { λ e.
        record { ledger = e.ledger; out_of_step = e.out_of_step; waits = e.wait_queues } };

    ghost invariant = { λ e. IsRefusedForGood J.inst J.cap e.ledger e.out_of_step };
}

/// What happened when a worker tried to enter an event.
#[derive(Clone, Copy, Debug)]
pub(crate) enum Entry {
    /// The event was entered. `more_mail` says whether more messages wait in the mailbox of the event's own desk; after
    /// a take no worker reads it, since an answer is due before the next take. `woken_desk` is a desk that now has
    /// work: after a put, the receiver whose mailbox was empty; after a receipt, the sender who waited for room.
    Made {
        more_mail: bool,
        woken_desk: Option<u32>,
    },
    /// The mailbox was full, and the desk waits for room.
    Later,
    /// The mailbox said that it is full, although it has room by the journal.
    Missed,
    /// The ledger accepts no more events.
    Ended,
    /// The core refused the event.
    Refused,
    /// The receiving end of the mailbox is gone.
    Gone,
}

// One function drops the whole exchange: callers prove nothing about its parts.
impl<J: ExchangeIdentity, M: Mailboxes> Drop for Exchange<J, M> {
    fn drop(self) {
        let Exchange {
            ledger: _,
            wait_queues: _,
            out_of_step: _,
        } = self;
    }
}

impl<J: ExchangeIdentity, M: Mailboxes> Exchange<J, M> {
    /// An exchange with this ledger and this number of desks, while no desk waits for room.
    pub(crate) fn new(
        alloc: Global,
        ledger: Ledger<J, M::OfferPut, M::AnswerPut>,
        desks: usize,
    ) -> Result<Exchange<J, M>, AllocError> {
        Ok(Exchange {
            wait_queues: WaitQueues::with_desks(alloc, desks)?,
            ledger,
            out_of_step: None,
        })
    }

    /// The ledger, and the receipt that the core refused, if the core refused a receipt.
    pub(crate) fn into_parts(self) -> (Ledger<J, M::OfferPut, M::AnswerPut>, Option<Event>)
        ensures refused { IsRefusedForGood J.inst J.cap result.0 result.1 }
        ensures receipt { result.1 ≡ self.out_of_step }
    {
        let Exchange {
            ledger,
            wait_queues: _,
            out_of_step,
        } = self;
        (ledger, out_of_step)
    }

    /// Whether messages wait at a desk: by the journal they were put and not yet taken.
    #[inline(always)]
    pub(crate) fn has_mail(&self, inst: &Instance, desk: Desk) -> bool
        requires { inst.now ≡ J.inst }
    {
        match desk {
            Desk::Resident(resident) => {
                resident.0 < inst.residents() && self.ledger.core().has_offers(resident)
            }
            Desk::Programme(programme) => {
                programme.0 < inst.programmes() && self.ledger.core().has_answers(programme)
            }
        }
    }

    /// Notes that a worker has taken a programme's desk. The desk then no longer waits for room. The first answer
    /// says whether messages wait at the desk. The second says whether the desk was called because there is room.
    pub(crate) fn programme_comes(
        &mut self,
        inst: &Instance,
        programme: ProgrammeNo,
    ) -> (bool, bool)
        requires { inst.now ≡ J.inst }
    {
        let is_called = self.wait_queues.comes(desk_of_programme(inst, programme));
        (self.has_mail(inst, Desk::Programme(programme)), is_called)
    }

    /// Enters an offer of this programme to this resident.
    pub(crate) fn offer(
        &mut self,
        inst: &Instance,
        tally: &mut Tally<J>,
        programme: ProgrammeNo,
        resident: ResidentNo,
    ) -> Entry
        requires { inst.now ≡ J.inst }
        ensures more { IfMade result (λ more_mail woken_desk.
            more_mail ≡ answers_wait programme self.new.ledger.journal) }
        ensures waits_not { IfMade result (λ more_mail woken_desk. linked_at self.new.waits.mailbox
            (number_of_programme inst.now programme) ≡ None) }
    {
        let sender = desk_of_programme(inst, programme);
        match self
            .ledger
            .enter_offer_and_tell(inst, tally, programme, resident)
        {
            Ok(mail) => {
                self.wait_queues.leave(sender);
                Entry::Made {
                    more_mail: mail.sender_has_more,
                    woken_desk: mail.receiver_was_empty.then_some(resident.0),
                }
            }
            Err(refused) => self.put_refused(refused, resident.0, sender),
        }
    }

    /// Enters this resident's answer to this programme.
    pub(crate) fn answer(
        &mut self,
        inst: &Instance,
        tally: &mut Tally<J>,
        resident: ResidentNo,
        programme: ProgrammeNo,
        kind: AnswerKind,
    ) -> Entry
        requires { inst.now ≡ J.inst }
        ensures more { IfMade result (λ more_mail woken_desk.
            more_mail ≡ offers_wait resident self.new.ledger.journal) }
        ensures waits_not { IfMade result (λ more_mail woken_desk.
            linked_at self.new.waits.mailbox resident ≡ None) }
    {
        let receiver = desk_of_programme(inst, programme);
        match self
            .ledger
            .enter_answer_and_tell(inst, tally, resident, programme, kind)
        {
            Ok(mail) => {
                self.wait_queues.leave(resident.0);
                Entry::Made {
                    more_mail: mail.sender_has_more,
                    woken_desk: mail.receiver_was_empty.then_some(receiver),
                }
            }
            Err(refused) => self.put_refused(refused, receiver, resident.0),
        }
    }

    /// Enters a take, which makes room in its mailbox. If the core refuses the take, the ledger accepts no further
    /// event.
    pub(crate) fn take(
        &mut self,
        inst: &Instance,
        tally: &mut Tally<J>,
        resident: ResidentNo,
        programme: ProgrammeNo,
    ) -> Entry
        requires { inst.now ≡ J.inst }
    {
        match self.ledger.enter_take(inst, tally, resident, programme) {
            Ok(()) => Entry::Made {
                more_mail: true,
                woken_desk: self.wait_queues.call_first(resident.0),
            },
            Err(refused) => {
                let receipt = Event::Take {
                    resident,
                    programme,
                };
                self.receipt_refused(refused, receipt)
            }
        }
    }

    /// A guess of the rank of the offer that the resident took last.
    #[inline(always)]
    pub(crate) fn taken_rank(&self, resident: ResidentNo) -> u32 {
        self.ledger.core().taken_rank(resident)
    }

    /// Enters a hear, which makes room in its mailbox. If the core refuses the hear, the ledger accepts no further
    /// event.
    pub(crate) fn hear(
        &mut self,
        inst: &Instance,
        tally: &mut Tally<J>,
        programme: ProgrammeNo,
        resident: ResidentNo,
        kind: AnswerKind,
    ) -> Entry
        requires { inst.now ≡ J.inst }
        ensures { IfMade result (λ more_mail woken_desk.
            more_mail ≡ answers_wait programme self.new.ledger.journal) }
    {
        match self
            .ledger
            .enter_hear_and_tell(inst, tally, programme, resident, kind)
        {
            Ok(mail) => Entry::Made {
                more_mail: mail.sender_has_more,
                woken_desk: self
                    .wait_queues
                    .call_first(desk_of_programme(inst, programme)),
            },
            Err(refused) => {
                let receipt = Event::Hear {
                    programme,
                    resident,
                    kind,
                };
                self.receipt_refused(refused, receipt)
            }
        }
    }

    // What happened to a put that the ledger refused. If the mailbox was full, the sender now waits for room in it.
    #[cold]
    fn put_refused(&mut self, refused: EntryRefused, mailbox: u32, sender: u32) -> Entry
        ensures told { result ≡ refused_put refused }
        ensures waits { result ≡ Entry.Later → sender < length self.old.waits.mailbox →
            linked_at self.new.waits.mailbox sender ≡ Some mailbox }
    {
        match refused {
            EntryRefused::Step(Refused::MailboxFull) => {
                self.wait_queues.join(mailbox, sender);
                Entry::Later
            }
            EntryRefused::PutRefused(PutRefusal::Full) => Entry::Missed,
            EntryRefused::Spoiled => Entry::Ended,
            EntryRefused::PutRefused(PutRefusal::Gone) => Entry::Gone,
            EntryRefused::Step(_) => Entry::Refused,
        }
    }

    // What happened to a refused receipt. Once the core has refused a receipt, the ledger accepts no event.
    #[cold]
    fn receipt_refused(&mut self, refused: EntryRefused, receipt: Event) -> Entry
        requires receipt { IsReceipt receipt }
        requires refused { IsRefused J.inst J.cap self.old.ledger receipt ⊥ ⊥ refused }
        ensures { result ≡ refused_receipt refused }
    {
        match refused {
            EntryRefused::Spoiled => Entry::Ended,
            EntryRefused::Step(_) => {
                self.ledger.spoil();
                self.out_of_step = Some(receipt);
                Entry::Refused
            }
            EntryRefused::PutRefused(PutRefusal::Full) => unreachable!(),
            EntryRefused::PutRefused(PutRefusal::Gone) => unreachable!(),
        }
    }

    /// The desk of some event that may follow the journal. If this event is the close, it is entered.
    pub(crate) fn close_or_find(
        &mut self,
        inst: &Instance,
        tally: &mut Tally<J>,
    ) -> Found<CloseToken<J>>
        requires { inst.now ≡ J.inst }
        ensures { IsCapacity J.cap → IfDesk result (HasEvent J.inst J.cap self.old.ledger) }
    {
        let Some(event) = self.ledger.core().some_enabled(inst) else {
            return Found::Ended;
        };
        match desk_of(inst, event) {
            Some(desk) => Found::Desk(desk),
            None => match self.ledger.close_and_tell(inst, tally) {
                Ok(close) => Found::Closed(close),
                Err(_) => Found::Ended,
            },
        }
    }
}

/// What a worker gets that asks the core for something to do.
#[derive(Drop)]
pub(crate) enum Found<C> {
    /// The exchange was at rest, and this worker has entered the close. The worker still has to end the run.
    Closed(C),
    /// The ledger accepts no more events: another worker closed the exchange, or another worker's receipt was refused.
    /// That other worker ends the run.
    Ended,
    /// Some event may follow at the desk with this number.
    Desk(u32),
}

/// The number of a programme's desk. Programmes' desks are numbered after all residents' desks.
#[inline(always)]
pub(crate) fn desk_of_programme(inst: &Instance, programme: ProgrammeNo) -> u32
    ensures { result ≡ number_of_programme inst.now programme }
{
    inst.residents().saturating_add(programme.0)
}

// The number of the event's desk, or none if the event is a close.
fn desk_of(inst: &Instance, event: Event) -> Option<u32>
    ensures { result ≡ number_of_desk inst.now event }
{
    match event {
        Event::Take { resident, .. } => Some(resident.0),
        Event::Answer { resident, .. } => Some(resident.0),
        Event::Hear { programme, .. } => Some(desk_of_programme(inst, programme)),
        Event::Offer { programme, .. } => Some(desk_of_programme(inst, programme)),
        Event::Close => None,
    }
}
