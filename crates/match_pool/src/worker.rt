//! A worker takes a desk that may have work, works there while the desk has work, and goes on to the next desk. If the
//! exchange is at rest, the worker closes the exchange.
ghost use Rattle.std.specs.Prelude.{◌≡◌, ◌≢◌, ◌⊎◌, ◌++◌, ◌∷◌, [], None, true, slice_get};
ghost use Rattle.match_agents.specs.Programmes.{wish_of};

use crate::exchange::{Entry, Found};
use crate::fault::Trouble;
use crate::gate::{Gate, Go};
use crate::locks::{DeskRank, InnerRank};
use crate::mailboxes::Mailboxes;
use crate::naps::Naps;
use crate::seats::{ProgrammeSeat, ResidentSeat};
use crate::shared::SharedState;
use desk_scheduler::{Hand, Looking, Turn, TurnOf, Wake, Woken, WorkersIdentity};
use exchange_core::{AnswerKind, AnswerNote, Desk};
use match_agents::Heard;
use match_model::{Instance, ProgrammeNo, ResidentNo};
use offer_ledger::{ExchangeIdentity, Tally};
use std::sync::Wait;

/// One worker of a run. The worker notes the numbers of desks to which its events may have given work, until it lists
/// these desks for all workers.
#[derive(Drop)]
pub(crate) struct Worker<
    'a,
    'f,
    J: ExchangeIdentity + WorkersIdentity,
    M: Mailboxes,
    G: Gate,
    R: Wait,
> {
    rt: &'a R,
    inst: &'a Instance,
    gate: &'a G,
    shared: &'a SharedState<'f, J, M, G>,
    number: usize,
    tally: Tally<J>,
    inner_rank: InnerRank<J>,
    woken: Woken,
    missed: u32,
    ghost named: { inst.now ≡ J.inst },
    ghost idle: { inner_rank.share.parts ≡ 1 },
}

/// What a worker does after a step at a desk.
#[derive(Clone, Copy, Debug, PartialEq, Eq)]
enum Step {
    /// The worker stays at the desk: an event was entered, or the mailbox had no message. `more_mail` says whether the
    /// mailbox may have further messages.
    Stay { more_mail: bool },
    /// The worker leaves the desk. `visit_again` says whether the desk has to be visited again at once.
    Leave { visit_again: bool },
}

/// A miss is a mailbox without a message, or without room, although the journal says otherwise. After this many
/// misses in a row, a worker naps after each further miss.
const MISSES_BEFORE_NAPS: u32 = 16;

/// How often a worker that found no desk naps and looks again, before it rests until a desk is listed.
const LOOKS_BEFORE_REST: u32 = 8;

const LEAVE: Step = Step::Leave { visit_again: false };

// What an answer wakes its programme for: a decline or a release gives back a place, so the programme may make
// another offer.
#[inline(always)]
fn wake_of(kind: AnswerKind) -> Wake {
    match kind {
        AnswerKind::Hold => Wake::Hold,
        AnswerKind::Decline | AnswerKind::Release => Wake::Work,
    }
}

impl<'a, 'f, J: ExchangeIdentity + WorkersIdentity, M: Mailboxes, G: Gate, R: Wait> Worker<
    'a,
    'f,
    J,
    M,
    G,
    R,
> {
    /// The worker with this number and tally, before it has noted any desk.
    pub(crate) fn new(
        rt: &'a R,
        inst: &'a Instance,
        gate: &'a G,
        shared: &'a SharedState<'f, J, M, G>,
        number: usize,
        tally: Tally<J>,
        inner_rank: InnerRank<J>,
    ) -> Worker<'a, 'f, J, M, G, R>
        requires named { inst.now ≡ J.inst }
        requires idle { inner_rank.share.parts ≡ 1 }
    {
        Worker {
            rt,
            inst,
            gate,
            shared,
            number,
            tally,
            inner_rank,
            woken: Woken::new(),
            missed: 0,
        }
    }

    /// Works at desks until the run ends, and returns the worker's tally. The worker begins with the token of a
    /// worker that looks for a desk and gives this token back, so it has let go of each desk that it took.
    pub(crate) fn work(
        mut self,
        desk_rank: DeskRank<J>,
        looking: Looking<J>,
    ) -> (Tally<J>, Looking<J>) {
        let mut rank = desk_rank;
        let mut next_hand = self.begin(looking);
        for _ in self.rt.forever() {
            match next_hand {
                Ok(hand) => {
                    let (visit_again, rank_back) = self.visit(rank, hand.desk());
                    rank = rank_back;
                    next_hand = self.change_desk(hand, visit_again);
                }
                Err(looking) => {
                    let Worker { tally, .. } = self;
                    return (tally, looking);
                }
            }
        }
        unreachable!()
    }

    // Gets the worker's first desk.
    fn begin(&mut self, looking: Looking<J>) -> Result<Hand<J>, Looking<J>> {
        let first_turn = self.next(looking);
        self.or_search(first_turn)
    }

    // Works at a desk while the desk has work. The answer is whether the desk has to be visited again at once.
    fn visit(&mut self, rank: DeskRank<J>, desk: u32) -> (bool, DeskRank<J>) {
        let residents = self.inst.residents();
        if desk < residents {
            let Some(seat) = self.shared.residents.get(desk as usize) else {
                return (false, rank);
            };
            let mut seat = seat.lock(self.rt, rank, &self.inner_rank);
            let visit_again = self.visit_resident(seat.value(), ResidentNo(desk));
            (visit_again, seat.give_back())
        } else {
            let programme = desk - residents;
            let Some(seat) = self.shared.programmes.get(programme as usize) else {
                return (false, rank);
            };
            let mut seat = seat.lock(self.rt, rank, &self.inner_rank);
            let visit_again = self.visit_programme(seat.value(), ProgrammeNo(programme));
            (visit_again, seat.give_back())
        }
    }

    // Gives every answer that is due and takes the next offer, while the resident's mailbox has an offer. The worker
    // looks into the mailbox first, and asks the ledger only if the mailbox has no message.
    fn visit_resident(&mut self, seat: &mut ResidentSeat<J, M>, resident: ResidentNo) -> bool {
        let mut more_mail = true;
        for _ in self.rt.forever() {
            if self.shared.is_ending() {
                return false;
            }
            let step = match seat.due_answer() {
                Some((programme, kind)) => self.answer(seat, resident, programme, kind),
                None if more_mail => self.take(seat, resident),
                None => return false,
            };
            match step {
                Step::Stay { more_mail: more } => more_mail = more,
                Step::Leave { visit_again } => return visit_again,
            }
        }
        unreachable!()
    }

    // Hears every answer that waits, and makes offers while the programme has a wish. If the desk was called because a
    // mailbox got room, the offer into that room comes first, since other desks wait behind it.
    fn visit_programme(&mut self, seat: &mut ProgrammeSeat<J, M>, programme: ProgrammeNo) -> bool {
        let mut more_mail = true;
        if seat.asks_first_once() {
            let mut exchange = self.shared.lock_exchange(self.rt, &mut self.inner_rank);
            let (has_more, is_called) = exchange.value().programme_comes(self.inst, programme);
            self.inner_rank.give_back(exchange);
            more_mail = has_more;
            if more_mail && is_called {
                match self.offer_next(seat, programme) {
                    Step::Stay { more_mail: more } => more_mail = more,
                    Step::Leave { .. } => return true,
                }
            }
        }
        for _ in self.rt.forever() {
            if self.shared.is_ending() {
                return false;
            }
            let step = if more_mail {
                self.hear(seat, programme)
            } else {
                self.offer_next(seat, programme)
            };
            match step {
                Step::Stay { more_mail: more } => more_mail = more,
                Step::Leave { visit_again } => return visit_again,
            }
        }
        unreachable!()
    }

    // Gives the first answer that is due.
    fn answer(
        &mut self,
        seat: &mut ResidentSeat<J, M>,
        resident: ResidentNo,
        programme: ProgrammeNo,
        kind: AnswerKind,
    ) -> Step
        requires { slice_get seat.old.agent.due 0 ≢ None }
    {
        let mut exchange = self.shared.lock_exchange(self.rt, &mut self.inner_rank);
        let entry = exchange
            .value()
            .answer(self.inst, &mut self.tally, resident, programme, kind);
        self.inner_rank.give_back(exchange);
        if let Entry::Made { .. } = entry {
            seat.answered();
        }
        let (sender, receiver) = (Desk::Resident(resident), Desk::Programme(programme));
        self.after_put(entry, sender, receiver, wake_of(kind))
    }

    // Makes the programme's next offer, if the programme has a wish.
    #[inline(always)]
    fn offer_next(&mut self, seat: &mut ProgrammeSeat<J, M>, programme: ProgrammeNo) -> Step {
        match seat.wish(self.inst) {
            Some(resident) => self.offer(seat, programme, resident),
            None => LEAVE,
        }
    }

    // Makes the programme's next offer, which goes to this resident.
    fn offer(
        &mut self,
        seat: &mut ProgrammeSeat<J, M>,
        programme: ProgrammeNo,
        resident: ResidentNo,
    ) -> Step
        requires { wish_of J.inst seat.old.agent ≢ None }
    {
        let mut exchange = self.shared.lock_exchange(self.rt, &mut self.inner_rank);
        let entry = exchange
            .value()
            .offer(self.inst, &mut self.tally, programme, resident);
        self.inner_rank.give_back(exchange);
        match entry {
            Entry::Made { .. } => seat.offered(self.inst),
            Entry::Later => seat.waits_for_room(),
            Entry::Missed | Entry::Ended | Entry::Refused | Entry::Gone => {}
        }
        let (sender, receiver) = (Desk::Programme(programme), Desk::Resident(resident));
        self.after_put(entry, sender, receiver, Wake::Work)
    }

    // Takes an offer out of the mailbox, enters the take, and decides about the offer.
    fn take(&mut self, seat: &mut ResidentSeat<J, M>, resident: ResidentNo) -> Step {
        let desk = Desk::Resident(resident);
        let same_desk = desk;
        self.list_woken();
        let programme = match seat.take() {
            Heard::Got(note) => note.programme,
            heard => return self.after_look(heard, desk),
        };
        self.pass(same_desk);
        let mut exchange = self.shared.lock_exchange(self.rt, &mut self.inner_rank);
        let entry = exchange
            .value()
            .take(self.inst, &mut self.tally, resident, programme);
        let rank_guess = exchange.value().taken_rank(resident);
        self.inner_rank.give_back(exchange);
        seat.decide(self.inst, rank_guess);
        self.after_receipt(entry)
    }

    // Takes an answer out of the mailbox, and enters the hear.
    fn hear(&mut self, seat: &mut ProgrammeSeat<J, M>, programme: ProgrammeNo) -> Step {
        let desk = Desk::Programme(programme);
        let same_desk = desk;
        self.list_woken();
        let note = match seat.hear() {
            Heard::Got(note) => note,
            heard => return self.after_look(heard, desk),
        };
        self.pass(same_desk);
        let AnswerNote { resident, kind } = note;
        let mut exchange = self.shared.lock_exchange(self.rt, &mut self.inner_rank);
        let entry = exchange
            .value()
            .hear(self.inst, &mut self.tally, programme, resident, kind);
        self.inner_rank.give_back(exchange);
        self.after_receipt(entry)
    }

    // Makes the gate's call before a receipt is entered, and ends the run if the gate says so.
    #[inline(always)]
    fn pass(&mut self, desk: Desk) {
        if let Go::Stop = self.gate.pass(self.number, desk) {
            self.shared.stop(self.rt, &mut self.inner_rank);
        }
    }

    // The step after an event that puts a message. `wake` says what the put wakes the receiver for.
    #[inline(always)]
    fn after_put(&mut self, entry: Entry, sender: Desk, receiver: Desk, wake: Wake) -> Step {
        match entry {
            Entry::Made {
                more_mail,
                woken_desk,
            } => self.after_made(more_mail, woken_desk, wake),
            Entry::Later | Entry::Ended => LEAVE,
            Entry::Missed => self.miss(sender),
            Entry::Refused => {
                self.shared
                    .fail(self.rt, &mut self.inner_rank, Trouble::Torn(sender));
                LEAVE
            }
            Entry::Gone => {
                self.shared
                    .fail(self.rt, &mut self.inner_rank, Trouble::MailGone(receiver));
                LEAVE
            }
        }
    }

    // The step after a receipt. If the receipt woke a desk, this desk had waited for room in the mailbox.
    #[inline(always)]
    fn after_receipt(&mut self, entry: Entry) -> Step {
        match entry {
            Entry::Made {
                more_mail,
                woken_desk,
            } => self.after_made(more_mail, woken_desk, Wake::Work),
            Entry::Refused => {
                self.shared
                    .fail(self.rt, &mut self.inner_rank, Trouble::OutOfStep);
                LEAVE
            }
            Entry::Later | Entry::Missed | Entry::Ended | Entry::Gone => LEAVE,
        }
    }

    // The step after a look into a mailbox that had no message. If no message waits by the ledger either, the worker
    // goes on to the desk's other work.
    fn after_look<N: Drop>(&mut self, heard: Heard<N>, desk: Desk) -> Step {
        if let Heard::Gone = heard {
            self.shared
                .fail(self.rt, &mut self.inner_rank, Trouble::MailGone(desk));
            return LEAVE;
        }
        let same_desk = desk;
        let mut exchange = self.shared.lock_exchange(self.rt, &mut self.inner_rank);
        let mail_waits = exchange.value().has_mail(self.inst, same_desk);
        self.inner_rank.give_back(exchange);
        if !mail_waits {
            return Step::Stay { more_mail: false };
        }
        if let Heard::LogFull = heard {
            self.shared
                .fail(self.rt, &mut self.inner_rank, Trouble::Torn(desk));
            return LEAVE;
        }
        self.miss(desk)
    }

    // Counts a miss at a desk. The desk is visited again, unless there were too many misses in a row.
    #[cold]
    fn miss(&mut self, desk: Desk) -> Step {
        self.missed = self.missed.saturating_add(1);
        if self.missed >= M::PATIENCE {
            self.shared
                .fail(self.rt, &mut self.inner_rank, Trouble::Torn(desk));
            return LEAVE;
        }
        if self.missed > MISSES_BEFORE_NAPS {
            let mut naps = Naps::FOR_WORK;
            self.shared.nap(self.rt, &mut naps);
        }
        Step::Leave { visit_again: true }
    }

    // What a worker does after an event was entered: it notes the desk that the event woke, and makes the gate's
    // call. If the gate may keep this worker waiting, the woken desks are listed first.
    #[inline(always)]
    fn after_made(&mut self, more_mail: bool, woken_desk: Option<u32>, wake: Wake) -> Step {
        self.missed = 0;
        if let Some(desk) = woken_desk {
            self.note(desk, wake);
        }
        if G::ENTERED_MAY_HOLD {
            self.list_woken();
        }
        self.gate.entered(self.number);
        Step::Stay { more_mail }
    }

    // Notes a desk that was woken. If there is no room for a further note, the desks noted so far are listed first.
    fn note(&mut self, desk: u32, wake: Wake)
        ensures { (self.new.woken ≡ self.old.woken ++ (desk, wake) ∷ [])
            ⊎ (self.new.woken ≡ (desk, wake) ∷ []) }
    {
        if self.woken.is_full() {
            self.list_woken();
        }
        self.woken.note(desk, wake);
    }

    // Lists the noted desks for all workers, and wakes a worker that rests.
    fn list_woken(&mut self)
        ensures { self.new.woken ≡ [] }
    {
        if self.woken.is_empty() {
            return;
        }
        let mut state = self.shared.lock_state(self.rt, &mut self.inner_rank);
        let wakes_worker = {
            state.value().shift.list_all(&mut self.woken);
            state.value().shift.wakes_one()
        };
        self.inner_rank.give_back(state);
        if wakes_worker {
            self.shared.wake_one();
        }
    }

    // Leaves a desk, lists the noted desks, and takes the next desk.
    fn change_desk(&mut self, hand: Hand<J>, visit_again: bool) -> Result<Hand<J>, Looking<J>> {
        let mut state = self.shared.lock_state(self.rt, &mut self.inner_rank);
        let (next_turn, wakes_worker) = {
            state.value().shift.list_all(&mut self.woken);
            let looking = state.value().shift.let_go(hand, visit_again);
            (
                state.value().shift.next(looking),
                state.value().shift.wakes_one(),
            )
        };
        self.inner_rank.give_back(state);
        if wakes_worker {
            self.shared.wake_one();
        }
        self.or_search(next_turn)
    }

    // The desk that was found, or else one that a search finds. Once the run ends, the worker's token comes back
    // instead.
    fn or_search(&mut self, turn: TurnOf<J>) -> Result<Hand<J>, Looking<J>> {
        match turn {
            Turn::Desk(hand) => Ok(hand),
            Turn::Nothing(looking) => self.search(looking),
            Turn::Ended(looking) => Err(looking),
        }
    }

    // What a worker does if no desk is listed: it asks the core once for an event, closes an exchange at rest, or
    // rests. The worker's token comes back once the run ends or the ledger accepts no events; then the worker that
    // closed or failed ends the run.
    fn search(&mut self, looking: Looking<J>) -> Result<Hand<J>, Looking<J>> {
        let mut looking = looking;
        for _ in self.rt.forever() {
            if self.shared.is_ending() {
                return Err(looking);
            }
            let mut exchange = self.shared.lock_exchange(self.rt, &mut self.inner_rank);
            let search_result = exchange.value().close_or_find(self.inst, &mut self.tally);
            self.inner_rank.give_back(exchange);
            let desk = match search_result {
                Found::Desk(desk) => desk,
                Found::Closed(close) => {
                    self.gate.entered(self.number);
                    self.shared.close(self.rt, &mut self.inner_rank, close);
                    return Err(looking);
                }
                Found::Ended => return Err(looking),
            };
            match self.claim_or_look(looking, desk) {
                Turn::Desk(hand) => return Ok(hand),
                Turn::Nothing(still_looking) => looking = still_looking,
                Turn::Ended(looking) => return Err(looking),
            }
        }
        unreachable!()
    }

    // Takes this desk. If another worker has it, this worker naps a few times, looks after each nap whether a desk is
    // listed, and then rests. A worker that naps need not be woken.
    fn claim_or_look(&mut self, looking: Looking<J>, desk: u32) -> TurnOf<J> {
        let mut state = self.shared.lock_state(self.rt, &mut self.inner_rank);
        let mut turn = state.value().shift.claim_or_next(looking, desk);
        self.inner_rank.give_back(state);
        let mut naps = Naps::FOR_WORK;
        for _ in 0..LOOKS_BEFORE_REST {
            let looking = match turn {
                Turn::Nothing(looking) => looking,
                turn => return turn,
            };
            self.shared.nap(self.rt, &mut naps);
            turn = self.next(looking);
        }
        match turn {
            Turn::Nothing(looking) => self.rest(looking),
            turn => turn,
        }
    }

    // Takes the next desk that is listed.
    fn next(&mut self, looking: Looking<J>) -> TurnOf<J> {
        let mut state = self.shared.lock_state(self.rt, &mut self.inner_rank);
        let next_turn = state.value().shift.next(looking);
        self.inner_rank.give_back(state);
        next_turn
    }

    // Rests until a desk is listed or the run ends. If no other worker has a desk, this worker searches on instead. A
    // worker that lists desks wakes one resting worker, which wakes the next one if it leaves a desk listed.
    fn rest(&mut self, looking: Looking<J>) -> TurnOf<J> {
        let mut state = self.shared.lock_state(self.rt, &mut self.inner_rank);
        let resting = match state.value().shift.rests(looking) {
            Ok(resting) => resting,
            Err(looking) => {
                self.inner_rank.give_back(state);
                return Turn::Nothing(looking);
            }
        };
        let mut state = self.shared.rest(self.rt, state, &resting);
        let looking = state.value().shift.wakes(resting);
        let next_turn = state.value().shift.next(looking);
        let wakes_worker = state.value().shift.wakes_one();
        self.inner_rank.give_back(state);
        if wakes_worker {
            self.shared.wake_one();
        }
        next_turn
    }
}
