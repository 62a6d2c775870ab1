//! Mailboxes in which a gate can keep puts or takes waiting.
ghost use Rattle.std.specs.Prelude.{◌≡◌, ◌≢◌, [], IfOk, IfErr};

use exchange_core::{AnswerNote, OfferNote};
use mailbox_rule::{MailFault, PutEnd, PutReply, RuledPut, RuledTake, TakeEnd, TakeReply, mailbox};
use match_model::{ProgrammeNo, ResidentNo};
use match_pool::Mailboxes;
use std::alloc::Global;
use std::marker::Model;
use std::sync::Wait;
use std::sync::atomic::{AtomicBool, AtomicU64, Ordering};
use std::time::Duration;

/// How often a worker that is kept waiting looks whether it may go on; it looks once in a millisecond.
const LOOKS: u32 = 15_000;

/// What a gate and the mailboxes of its run share. Once the gate has armed a latch for puts, the latch keeps
/// one put waiting for a while. A latch for takes keeps a take waiting until the gate opens it.
#[derive(Drop)]
pub(crate) struct Latch<R: Wait + Copy> {
    rt: R,
    is_of_puts: bool,
    clock: AtomicU64,
    is_armed: AtomicBool,
    has_wait_begun: AtomicBool,
    is_open: AtomicBool,
}

impl<R: Wait + Copy> Latch<R> {
    /// A latch before any put or take.
    pub(crate) fn new(rt: R, is_of_puts: bool) -> Latch<R> {
        Latch {
            rt,
            is_of_puts,
            clock: AtomicU64::new(0),
            is_armed: AtomicBool::new(false),
            has_wait_begun: AtomicBool::new(false),
            is_open: AtomicBool::new(false),
        }
    }

    /// Sleeps for this number of milliseconds.
    pub(crate) fn sleep(&self, milliseconds: u64) {
        self.clock
            .park_timeout(&self.rt, 0, Duration::from_millis(milliseconds));
    }

    // Waits until the flag is set, or until a long time has passed.
    fn wait_for(&self, flag: &AtomicBool) {
        for _ in 0..LOOKS {
            if flag.load(Ordering::SeqCst) {
                return;
            }
            self.sleep(1);
        }
    }

    /// Arms the latch, so that the next put is kept waiting. Returns whether it was armed for the first time.
    pub(crate) fn arms(&self) -> bool {
        !self.is_armed.swap(true, Ordering::SeqCst)
    }

    /// Waits until a put or a take is kept waiting.
    pub(crate) fn wait_until_begun(&self) {
        self.wait_for(&self.has_wait_begun);
    }

    /// Whether a put or a take was kept waiting.
    pub(crate) fn has_wait_begun(&self) -> bool {
        self.has_wait_begun.load(Ordering::SeqCst)
    }

    /// Opens the latch, so that a waiting take goes on.
    pub(crate) fn opens(&self) {
        self.is_open.store(true, Ordering::SeqCst);
    }

    // Keeps a put waiting, if it is the first one after the latch was armed. The worker of this put has the ledger's
    // lock meanwhile.
    fn holds_put(&self) {
        let is_armed = self.is_of_puts && self.is_armed.load(Ordering::SeqCst);
        if is_armed && !self.has_wait_begun.swap(true, Ordering::SeqCst) {
            self.sleep(200);
        }
    }

    // Keeps a take waiting until the latch is opened.
    fn holds_take(&self) {
        self.has_wait_begun.store(true, Ordering::SeqCst);
        self.wait_for(&self.is_open);
    }
}

/// A sending end whose puts a latch may keep waiting.
#[derive(Drop)]
pub(crate) struct LatchedPut<'a, M: Copy, R: Wait + Copy> {
    end: RuledPut<M, R>,
    latch: &'a Latch<R>,
}

impl<'a, M: Copy, R: Wait + Copy> Model for LatchedPut<'a, M, R> {
    ghost use Rattle.mailbox_rule.specs.Mail.{PutSide};

    ghost Value = { PutSide M };

    ghost view = { λ put. put.end };
}

impl<'a, M: Copy, R: Wait + Copy> PutEnd<M> for LatchedPut<'a, M, R> {
    ghost puts = { λ end. end.puts };

    ghost may_fill = { λ _. Unit {0} };

    ghost may_go = { λ _. Unit {0} };

    fn put(&mut self, message: M) -> PutReply<M> {
        self.latch.holds_put();
        self.end.put(message)
    }
}

/// A receiving end whose takes a latch may keep waiting. If its mailbox has lost the sending end, a take says so
/// after the latch was opened.
#[derive(Drop)]
pub(crate) struct LatchedTake<'a, M: Copy, R: Wait + Copy> {
    end: RuledTake<M, R>,
    latch: &'a Latch<R>,
    has_lost_sender: bool,
}

impl<'a, M: Copy, R: Wait + Copy> Model for LatchedTake<'a, M, R> {
    ghost use Rattle.mailbox_rule.specs.Mail.{TakeSide};

    ghost Value = { TakeSide M };

    ghost view = { λ take. take.end };
}

impl<'a, M: Copy, R: Wait + Copy> TakeEnd<M> for LatchedTake<'a, M, R> {
    ghost taken = { λ end. end.taken };

    ghost may_lack = { λ _. Unit {0} };

    ghost may_go = { λ _. Unit {0} };

    fn take(&mut self) -> TakeReply<M> {
        if self.has_lost_sender {
            self.latch.holds_take();
            return TakeReply::Gone;
        }
        self.end.take()
    }
}

/// Mailboxes under one latch. The mailbox of one resident may lose its sending end.
#[derive(Clone, Copy)]
pub(crate) struct Latched<'a, R: Wait + Copy> {
    pub(crate) rt: R,
    pub(crate) latch: &'a Latch<R>,
    pub(crate) lost_end_of: Option<ResidentNo>,
}

// The two ends of a mailbox under this latch.
fn ends_of<'a, M: Copy + Eq, R: Wait + Copy>(
    rt: R,
    alloc: Global,
    room: u32,
    latch: &'a Latch<R>,
    has_lost_sender: bool,
) -> Result<(LatchedPut<'a, M, R>, LatchedTake<'a, M, R>), MailFault>
    requires { room ≢ 0 }
    ensures made { IfOk result (λ ends. (ends.0.room ≡ room)
        × (ends.0.puts ≡ []) × (ends.1.taken ≡ [])) }
    ensures memory { IfErr result (λ fault. fault ≡ MailFault.Memory) }
{
    let (put, take) = mailbox(alloc, rt, room)?;
    let put = LatchedPut { end: put, latch };
    let take = LatchedTake {
        end: take,
        latch,
        has_lost_sender,
    };
    Ok((put, take))
}

impl<'a, R: Wait + Copy + Send + Sync> Mailboxes for Latched<'a, R> {
    type OfferPut = LatchedPut<'a, OfferNote, R>;

    type OfferTake = LatchedTake<'a, OfferNote, R>;

    type AnswerPut = LatchedPut<'a, AnswerNote, R>;

    type AnswerTake = LatchedTake<'a, AnswerNote, R>;

    const PATIENCE: u32 = 50;

    ghost offer_room = { λ end. end.room };

    ghost answer_room = { λ end. end.room };

    fn open_offers(
        &self,
        alloc: Global,
        resident: ResidentNo,
        room: u32,
    ) -> Result<(LatchedPut<'a, OfferNote, R>, LatchedTake<'a, OfferNote, R>), MailFault> {
        let has_lost_sender = self.lost_end_of == Some(resident);
        ends_of(self.rt, alloc, room, self.latch, has_lost_sender)
    }

    fn open_answers(
        &self,
        alloc: Global,
        _programme: ProgrammeNo,
        room: u32,
    ) -> Result<
        (
            LatchedPut<'a, AnswerNote, R>,
            LatchedTake<'a, AnswerNote, R>,
        ),
        MailFault,
    > {
        ends_of(self.rt, alloc, room, self.latch, false)
    }
}
