//! What the core stores for each programme's desk, with one row of notes for the mailboxes of all programmes.
ghost use Rattle.std.specs.Prelude.{◌≡◌, ◌+◌, ◌-◌, if◌then◌else◌, ◌*◌, ◌^◌, ◌<◌, ◌&&◌, [], true, length, map, slice_get, slice_set, IfOk, not, nat_lt};
ghost use Rattle.std.specs.List.{All};
ghost use Rattle.exchange_core.specs.Calls.{is_rejection};
ghost use Rattle.exchange_core.specs.Pending.{has_answers, has_wish, IsContent};
ghost use Rattle.exchange_core.specs.Rows.{note_of, answer_of};
ghost use Rattle.exchange_core.specs.Seats.{seat_of_programme, made_offer, sent_answer, heard_answer, opened_programmes};

use crate::counts::recounted;
use crate::event::{AnswerKind, Capacity};
use crate::part::{Part, room};
use match_model::{Instance, ProgrammeNo, ResidentNo};
use std::alloc::{AllocError, Global};
use std::marker::Model;

/// A programme's desk: its part of the row of notes, with the waiting answers; the number of offers made; the number of
/// offers out; the quota; and the length of the programme's list.
#[derive(Clone, Copy)]
pub(crate) struct ProgrammeSeat {
    part: Part,
    offers_made: u32,
    offers_out: u32,
    places: u32,
    list_length: u32,
}

impl ProgrammeSeat {
    /// Whether the programme has a wish: a free place and a next resident on the list.
    #[inline(always)]
    fn has_wish(self) -> bool
        ensures { result ≡ (nat_lt self.offers_out self.places
            && nat_lt self.offers_made self.list_length) }
    {
        self.offers_out < self.places && self.offers_made < self.list_length
    }
}

/// A seat for each programme, and the notes of all waiting answers. The row also counts the programmes with waiting
/// answers, and the programmes with a wish.
#[derive(Drop)]
pub(crate) struct ProgrammeRow {
    seats: Vec<ProgrammeSeat>,
    notes: Vec<u32>,
    programmes_with_answers: usize,
    programmes_with_wish: usize,
}

impl Model for ProgrammeRow {
    ghost use Rattle.std.specs.Prelude.{◌≡◌, ◌<◌, ◌^◌, List, map, length};
    ghost use Rattle.std.specs.List.{All, count_by};
    ghost use Rattle.exchange_core.specs.Left.{ProgrammeLeft};
    ghost use Rattle.exchange_core.specs.Notes.{AreLaid};
    ghost use Rattle.exchange_core.specs.Pending.{has_answers, has_wish};
    ghost use Rattle.exchange_core.specs.Rows.{shown_programme, programme_span, IsProgrammeRing};

    ghost Value = { List ProgrammeLeft };

    ghost view = { λ d. map (shown_programme d.notes.items) d.seats.items };

    ghost invariant = { λ d. record {
      laid : AreLaid (map programme_span d.seats.items) (length d.notes.items);
      rings : All IsProgrammeRing d.seats.items;
      few : length d.seats.items < 2 ^ 32;
      answers_counted : d.programmes_with_answers
          ≡ count_by has_answers (map (shown_programme d.notes.items) d.seats.items);
      wishes_counted : d.programmes_with_wish
          ≡ count_by has_wish (map (shown_programme d.notes.items) d.seats.items);
    } };
}

impl ProgrammeRow {
    /// A desk for each programme, before any event.
    pub(crate) fn open(
        alloc: Global,
        inst: &Instance,
        cap: Capacity,
    ) -> Result<ProgrammeRow, AllocError>
        ensures { IfOk result (λ desks. desks ≡ opened_programmes inst.now cap) }
    {
        let programme_count = inst.programmes();
        let mut seats = Vec::with_capacity(alloc, programme_count as usize)?;
        let mut total_room = 0;
        let mut programmes_with_wish = 0;
        for p in 0..programme_count {
            let list_length = inst.list_of_programme(ProgrammeNo(p)).len();
            let room = room(cap, 2 * list_length);
            let seat = ProgrammeSeat {
                part: Part::open(total_room, room),
                offers_made: 0,
                offers_out: 0,
                places: inst.quota(ProgrammeNo(p)),
                list_length: list_length as u32,
            };
            programmes_with_wish = recounted(programmes_with_wish, false, seat.has_wish());
            seats.push(seat)?;
            total_room += room as usize;
        }
        Ok(ProgrammeRow {
            seats,
            notes: vec![in alloc; 0; total_room]?,
            programmes_with_answers: 0,
            programmes_with_wish,
        })
    }

    /// Whether no answer waits anywhere and no programme has a wish.
    pub(crate) fn are_content(&self) -> bool
        ensures { result ≡ true → All IsContent self.now }
    {
        self.programmes_with_answers == 0 && self.programmes_with_wish == 0
    }

    /// Whether the programme's mailbox is full.
    #[inline(always)]
    pub(crate) fn is_full(&self, programme: ProgrammeNo) -> bool
        requires { programme < length self.now }
        ensures { result ≡ not (nat_lt (length (seat_of_programme self.now programme).waiting)
            (seat_of_programme self.now programme).room) }
    {
        let part = self.seats[programme.0 as usize].part;
        !(part.len < part.room)
    }

    #[inline(always)]
    pub(crate) fn has_waiting(&self, programme: ProgrammeNo) -> bool
        requires { programme < length self.now }
        ensures { result ≡ has_answers (seat_of_programme self.now programme) }
    {
        self.seats[programme.0 as usize].part.len > 0
    }

    /// The front answer, with its resident, or none if no answer waits.
    #[inline(always)]
    pub(crate) fn first_waiting(&self, programme: ProgrammeNo) -> Option<(ResidentNo, AnswerKind)>
        requires { programme < length self.now }
        ensures { result ≡ slice_get (seat_of_programme self.now programme).waiting 0 }
    {
        let part = self.seats[programme.0 as usize].part;
        match part.first(&self.notes) {
            Some(note) => Some(answer_of(note)),
            None => None,
        }
    }

    #[inline(always)]
    pub(crate) fn offered(&self, programme: ProgrammeNo) -> u32
        requires { programme < length self.now }
        ensures { result ≡ (seat_of_programme self.now programme).offered }
    {
        self.seats[programme.0 as usize].offers_made
    }

    #[inline(always)]
    pub(crate) fn has_place(&self, programme: ProgrammeNo) -> bool
        requires { programme < length self.now }
        ensures { result ≡ nat_lt (seat_of_programme self.now programme).out
            (seat_of_programme self.now programme).places }
    {
        let seat = &self.seats[programme.0 as usize];
        seat.offers_out < seat.places
    }

    /// Whether the programme has a wish: a free place and a next resident on the list.
    #[inline(always)]
    pub(crate) fn has_wish(&self, programme: ProgrammeNo) -> bool
        requires { programme < length self.now }
        ensures { result ≡ has_wish (seat_of_programme self.now programme) }
    {
        self.seats[programme.0 as usize].has_wish()
    }

    /// Makes the programme's next offer, which is then out.
    #[inline(always)]
    pub(crate) fn offer(&mut self, programme: ProgrammeNo)
        requires member { programme < length self.old }
        requires offered { (seat_of_programme self.old programme).offered + 1 < 2 ^ 32 }
        requires place { (seat_of_programme self.old programme).out
            < (seat_of_programme self.old programme).places }
        ensures { self.new
            ≡ slice_set self.old programme (made_offer (seat_of_programme self.old programme)) }
    {
        let seat = &mut self.seats[programme.0 as usize];
        let had_wish = seat.has_wish();
        seat.offers_made += 1;
        seat.offers_out = one_more(seat.offers_out, seat.places);
        let still_has_wish = seat.has_wish();
        self.programmes_with_wish = recounted(self.programmes_with_wish, had_wish, still_has_wish);
    }

    #[inline(always)]
    pub(crate) fn receive(&mut self, programme: ProgrammeNo, resident: ResidentNo, kind: AnswerKind)
        requires member { programme < length self.old }
        requires number { resident < 2 ^ 30 }
        requires room { length (seat_of_programme self.old programme).waiting
            < (seat_of_programme self.old programme).room }
        ensures { self.new ≡ slice_set self.old programme
            (sent_answer (seat_of_programme self.old programme) (resident, kind)) }
    {
        let seat = &mut self.seats[programme.0 as usize];
        let had_answers = seat.part.len > 0;
        seat.part.push(&mut self.notes, note_of(resident, kind));
        self.programmes_with_answers = recounted(self.programmes_with_answers, had_answers, true);
    }

    /// Removes the front answer from the programme's mailbox: the answer of this resident, of this kind. A rejection
    /// frees a place of the programme.
    #[inline(always)]
    pub(crate) fn hear(&mut self, programme: ProgrammeNo, resident: ResidentNo, kind: AnswerKind)
        requires { programme < length self.old }
        ensures { self.new ≡ slice_set self.old programme
            (heard_answer (seat_of_programme self.old programme) (resident, kind)) }
    {
        let seat = &mut self.seats[programme.0 as usize];
        let (had_answers, had_wish) = (seat.part.len > 0, seat.has_wish());
        seat.part.pop();
        seat.offers_out = out_after(seat.offers_out, resident, kind);
        let (still_has_answers, still_has_wish) = (seat.part.len > 0, seat.has_wish());
        self.programmes_with_answers = recounted(
            self.programmes_with_answers,
            had_answers,
            still_has_answers,
        );
        self.programmes_with_wish = recounted(self.programmes_with_wish, had_wish, still_has_wish);
    }
}

/// The number of offers out after the next offer is made. The programme has a free place.
#[inline(always)]
fn one_more(offers_out: u32, places: u32) -> u32
    requires { offers_out < places }
    ensures { result ≡ offers_out + 1 }
{
    offers_out + 1
}

/// The number of offers out after this answer is heard. A rejection frees a place.
#[inline(always)]
fn out_after(offers_out: u32, _resident: ResidentNo, kind: AnswerKind) -> u32
    ensures { result ≡ offers_out - (if is_rejection (_resident, kind) then 1 else 0) }
{
    match kind {
        AnswerKind::Hold => offers_out,
        AnswerKind::Decline | AnswerKind::Release => offers_out.saturating_sub(1),
    }
}

#[inline(always)]
fn note_of(resident: ResidentNo, kind: AnswerKind) -> u32
    requires { resident < 2 ^ 30 }
    ensures { result ≡ note_of (resident, kind) }
{
    let kind_code = match kind {
        AnswerKind::Hold => 0,
        AnswerKind::Decline => 1,
        AnswerKind::Release => 2,
    };
    resident.0 * 4 + kind_code
}

#[inline(always)]
fn answer_of(note: u32) -> (ResidentNo, AnswerKind)
    ensures { result ≡ answer_of note }
{
    let kind = match note % 4 {
        0 => AnswerKind::Hold,
        1 => AnswerKind::Decline,
        _ => AnswerKind::Release,
    };
    (ResidentNo(note / 4), kind)
}
