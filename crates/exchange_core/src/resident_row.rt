//! What the core stores for each resident's desk, with one row of notes for the mailboxes of all residents.
ghost use Rattle.std.specs.Prelude.{◌≡◌, ◌<◌, ◌%◌, ◌^◌, [], true, length, map, slice_get, slice_set, IfOk, not, nat_lt, drop, None};
ghost use Rattle.std.specs.List.{All};
ghost use Rattle.std.specs.Option.{option_to_list};
ghost use Rattle.exchange_core.specs.Pending.{has_offers, IsQuiet};
ghost use Rattle.exchange_core.specs.Calls.{held_after, release_of as released};
ghost use Rattle.exchange_core.specs.Rows.{programme_of, rank_of, rank_after};
ghost use Rattle.exchange_core.specs.Seats.{called_for, due_of, seat_of_resident, sent_offer, took_offer, gave_answer, opened_residents};

use crate::counts::recounted;
use crate::event::{AnswerKind, Capacity};
use crate::part::{Part, room};
use match_model::{Instance, MAX_PROGRAMMES, ProgrammeNo, ResidentNo};
use std::alloc::{AllocError, Global};
use std::marker::Model;

/// A resident's desk: its part of the row of notes, with the waiting offers; at most two due answers; and the
/// programme held. The desk also has guesses of two ranks on the resident's list: of the offer taken last, and of the
/// held offer.
#[derive(Clone, Copy)]
pub(crate) struct ResidentSeat {
    part: Part,
    first_due: Option<(ProgrammeNo, AnswerKind)>,
    second_due: Option<(ProgrammeNo, AnswerKind)>,
    held: Option<ProgrammeNo>,
    taken_rank: u32,
    held_rank: u32,
}

/// A seat for each resident, and the notes of all waiting offers. The row also counts the residents with waiting
/// offers, and the residents who owe an answer.
#[derive(Drop)]
pub(crate) struct ResidentRow {
    seats: Vec<ResidentSeat>,
    notes: Vec<u32>,
    residents_with_offers: usize,
    residents_with_due: usize,
}

impl Model for ResidentRow {
    ghost use Rattle.std.specs.Prelude.{◌≡◌, ◌<◌, ◌^◌, List, map, length};
    ghost use Rattle.std.specs.List.{All, count_by};
    ghost use Rattle.exchange_core.specs.Left.{ResidentLeft};
    ghost use Rattle.exchange_core.specs.Notes.{AreLaid};
    ghost use Rattle.exchange_core.specs.Pending.{has_offers, has_due};
    ghost use Rattle.exchange_core.specs.Rows.{shown_resident, resident_span, IsResidentRing};

    ghost Value = { List ResidentLeft };

    ghost view = { λ d. map (shown_resident d.notes.items) d.seats.items };

    ghost invariant = { λ d. record {
      laid : AreLaid (map resident_span d.seats.items) (length d.notes.items);
      rings : All IsResidentRing d.seats.items;
      few : length d.seats.items < 2 ^ 32;
      offers_counted : d.residents_with_offers
          ≡ count_by has_offers (map (shown_resident d.notes.items) d.seats.items);
      due_counted : d.residents_with_due
          ≡ count_by has_due (map (shown_resident d.notes.items) d.seats.items);
    } };
}

impl ResidentRow {
    /// A desk for each resident, before any event.
    pub(crate) fn open(
        alloc: Global,
        inst: &Instance,
        cap: Capacity,
    ) -> Result<ResidentRow, AllocError>
        ensures { IfOk result (λ desks. desks ≡ opened_residents inst.now cap) }
    {
        let resident_count = inst.residents();
        let mut seats = Vec::with_capacity(alloc, resident_count as usize)?;
        let mut total_room = 0;
        for r in 0..resident_count {
            let room = room(cap, inst.list_of_resident(ResidentNo(r)).len());
            seats.push(ResidentSeat {
                part: Part::open(total_room, room),
                first_due: None,
                second_due: None,
                held: None,
                taken_rank: 0,
                held_rank: 0,
            })?;
            total_room += room as usize;
        }
        Ok(ResidentRow {
            seats,
            notes: vec![in alloc; 0; total_room]?,
            residents_with_offers: 0,
            residents_with_due: 0,
        })
    }

    /// Whether no offer waits anywhere and no answer is due.
    pub(crate) fn are_quiet(&self) -> bool
        ensures { result ≡ true → All IsQuiet self.now }
    {
        self.residents_with_offers == 0 && self.residents_with_due == 0
    }

    /// Whether the resident's mailbox is full.
    #[inline(always)]
    pub(crate) fn is_full(&self, resident: ResidentNo) -> bool
        requires { resident < length self.now }
        ensures { result ≡ not (nat_lt (length (seat_of_resident self.now resident).waiting)
            (seat_of_resident self.now resident).room) }
    {
        let part = self.seats[resident.0 as usize].part;
        !(part.len < part.room)
    }

    #[inline(always)]
    pub(crate) fn has_waiting(&self, resident: ResidentNo) -> bool
        requires { resident < length self.now }
        ensures { result ≡ has_offers (seat_of_resident self.now resident) }
    {
        self.seats[resident.0 as usize].part.len > 0
    }

    /// The programme of the front offer, or none if no offer waits.
    #[inline(always)]
    pub(crate) fn first_waiting(&self, resident: ResidentNo) -> Option<ProgrammeNo>
        requires { resident < length self.now }
        ensures { result ≡ slice_get (seat_of_resident self.now resident).waiting 0 }
    {
        let part = self.seats[resident.0 as usize].part;
        match part.first(&self.notes) {
            Some(note) => Some(programme_of(note)),
            None => None,
        }
    }

    #[inline(always)]
    pub(crate) fn first_due(&self, resident: ResidentNo) -> Option<(ProgrammeNo, AnswerKind)>
        requires { resident < length self.now }
        ensures { result ≡ slice_get (seat_of_resident self.now resident).due 0 }
    {
        self.seats[resident.0 as usize].first_due
    }

    /// The programme whose offer the resident holds, or none.
    #[inline(always)]
    pub(crate) fn held(&self, resident: ResidentNo) -> Option<ProgrammeNo>
        requires { resident < length self.now }
        ensures { result ≡ (seat_of_resident self.now resident).held }
    {
        self.seats[resident.0 as usize].held
    }

    /// The guessed ranks of the front offer and of the held offer.
    #[inline(always)]
    pub(crate) fn ranks(&self, resident: ResidentNo) -> (u32, u32)
        requires { resident < length self.now }
    {
        let part = self.seats[resident.0 as usize].part;
        let held_rank = self.seats[resident.0 as usize].held_rank;
        match part.first(&self.notes) {
            Some(note) => (rank_of(note), held_rank),
            None => (0, held_rank),
        }
    }

    /// The guessed rank of the offer taken last, or 0 if there is no such resident.
    #[inline(always)]
    pub(crate) fn taken_rank(&self, resident: ResidentNo) -> u32 {
        match self.seats.get(resident.0 as usize) {
            Some(seat) => seat.taken_rank,
            None => 0,
        }
    }

    #[inline(always)]
    pub(crate) fn receive(&mut self, resident: ResidentNo, programme: ProgrammeNo, rank: u32)
        requires member { resident < length self.old }
        requires number { programme < MAX_PROGRAMMES }
        requires room { length (seat_of_resident self.old resident).waiting
            < (seat_of_resident self.old resident).room }
        ensures { self.new ≡ slice_set self.old resident
            (sent_offer (seat_of_resident self.old resident) programme) }
    {
        let seat = &mut self.seats[resident.0 as usize];
        let had_offers = seat.part.len > 0;
        seat.part
            .push(&mut self.notes, note_of_offer(programme, rank));
        self.residents_with_offers = recounted(self.residents_with_offers, had_offers, true);
    }

    /// Removes the front offer from the resident's mailbox: the offer of this programme, with this guess of its rank.
    /// Then the answers to the offer are due.
    #[inline(always)]
    pub(crate) fn take(
        &mut self,
        resident: ResidentNo,
        programme: ProgrammeNo,
        rank: u32,
        better: bool,
    )
        requires member { resident < length self.old }
        requires due { (seat_of_resident self.old resident).due ≡ [] }
        ensures { self.new ≡ slice_set self.old resident
            (took_offer (seat_of_resident self.old resident) better programme) }
    {
        let seat = &mut self.seats[resident.0 as usize];
        let due_answers = called_for(better, seat.held, programme);
        let had_offers = seat.part.len > 0;
        seat.part.pop();
        let still_has_offers = seat.part.len > 0;
        seat.first_due = due_answers.0;
        seat.second_due = due_answers.1;
        seat.taken_rank = rank;
        self.residents_with_offers = recounted(
            self.residents_with_offers,
            had_offers,
            still_has_offers,
        );
        self.residents_with_due = recounted(self.residents_with_due, false, true);
    }

    /// Removes the first due answer, which goes to this programme and is of this kind.
    #[inline(always)]
    pub(crate) fn answer(&mut self, resident: ResidentNo, programme: ProgrammeNo, kind: AnswerKind)
        requires { resident < length self.old }
        ensures { self.new ≡ slice_set self.old resident
            (gave_answer (seat_of_resident self.old resident) (programme, kind)) }
    {
        let seat = &mut self.seats[resident.0 as usize];
        let owed_answer = seat.first_due.is_some();
        seat.first_due = due_next(seat.first_due, seat.second_due);
        let still_owes = seat.first_due.is_some();
        seat.second_due = None;
        seat.held = held_after(seat.held, programme, kind);
        seat.held_rank = rank_after(seat.held_rank, seat.taken_rank, kind);
        self.residents_with_due = recounted(self.residents_with_due, owed_answer, still_owes);
    }
}

/// A note is the programme's number times this constant, plus the rank of the offer. A rank is below this constant,
/// since no list has more programmes than there are.
pub(crate) const RANKS: u32 = MAX_PROGRAMMES as u32;

#[inline(always)]
fn note_of_offer(programme: ProgrammeNo, rank: u32) -> u32
    requires { programme < MAX_PROGRAMMES }
    ensures programme { programme_of result ≡ programme }
    ensures rank { rank_of result ≡ rank % RANKS }
    ensures whole { rank < MAX_PROGRAMMES → rank_of result ≡ rank }
{
    programme.0 * RANKS + rank % RANKS
}

#[inline(always)]
fn programme_of(note: u32) -> ProgrammeNo
    ensures { result ≡ programme_of note }
{
    ProgrammeNo(note / RANKS)
}

#[inline(always)]
fn rank_of(note: u32) -> u32
    ensures { result ≡ rank_of note }
{
    note % RANKS
}

/// The guessed rank of the held offer after an answer of this kind: that of the offer taken last if the answer is a
/// hold, else unchanged.
#[inline(always)]
fn rank_after(held_rank: u32, taken_rank: u32, kind: AnswerKind) -> u32
    ensures { result ≡ rank_after held_rank taken_rank kind }
{
    match kind {
        AnswerKind::Hold => taken_rank,
        AnswerKind::Decline | AnswerKind::Release => held_rank,
    }
}

/// The answers to an offer. A better offer gets a hold, and then the offer held until now gets a release. An offer that
/// isn't better gets a decline.
#[inline(always)]
fn called_for(
    better: bool,
    held: Option<ProgrammeNo>,
    programme: ProgrammeNo,
) -> (
    Option<(ProgrammeNo, AnswerKind)>,
    Option<(ProgrammeNo, AnswerKind)>,
)
    ensures { due_of result.0 result.1 ≡ called_for better held programme }
{
    if better {
        return (Some((programme, AnswerKind::Hold)), release_of(held));
    }
    (Some((programme, AnswerKind::Decline)), None)
}

/// The programme whose offer is held after an answer of this kind to this programme.
#[inline(always)]
fn held_after(
    held: Option<ProgrammeNo>,
    programme: ProgrammeNo,
    kind: AnswerKind,
) -> Option<ProgrammeNo>
    ensures { result ≡ held_after held (programme, kind) }
{
    match kind {
        AnswerKind::Hold => Some(programme),
        AnswerKind::Decline | AnswerKind::Release => held,
    }
}

/// The answers that remain due after the first due answer was given.
#[tactic(auto, using(crate::proofs::Seats::due_after_first))]
#[inline(always)]
fn due_next(
    first_due: Option<(ProgrammeNo, AnswerKind)>,
    second_due: Option<(ProgrammeNo, AnswerKind)>,
) -> Option<(ProgrammeNo, AnswerKind)>
    ensures { due_of result None ≡ drop 1 (due_of first_due second_due) }
{
    match first_due {
        Some(_) => second_due,
        None => None,
    }
}

/// The answer that releases the programme held until now, if there is one.
#[inline(always)]
fn release_of(held: Option<ProgrammeNo>) -> Option<(ProgrammeNo, AnswerKind)>
    ensures { option_to_list result ≡ released held }
{
    match held {
        Some(displaced) => Some((displaced, AnswerKind::Release)),
        None => None,
    }
}
