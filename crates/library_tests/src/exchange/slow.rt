//! The definitions of a legal list of events, applied slowly: each time by filters over the whole list.
ghost use Rattle.std.specs.Prelude.{◌≡◌};
ghost use Rattle.exchange_core.specs.Refusal.{strange_desk};

use exchange_core::{AnswerKind, Capacity, Event, Pending, Refused};
use match_model::{Instance, ProgrammeNo, ResidentNo};

/// One of the six lists that a list of events gives for a desk: what the desk sent, was sent, took or heard.
#[derive(Clone, Copy)]
enum MailList {
    OffersOf,
    OffersTo,
    Takes,
    AnswersOf,
    AnswersTo,
    Hears,
}

/// An item of one of these six lists: the other member, and the kind if it is an answer.
type Letter = (u32, Option<AnswerKind>);

/// This item if the two numbers are equal, or none.
fn letter_if_same(member: u32, desk: u32, letter: Letter) -> Option<Letter> {
    if member == desk { Some(letter) } else { None }
}

/// The item that an event adds to this list of a desk, or none.
fn letter_of(mail_list: MailList, desk: u32, event: &Event) -> Option<Letter> {
    match event {
        Event::Offer {
            programme,
            resident,
        } => offer_letter(mail_list, desk, programme.0, resident.0),
        Event::Take {
            resident,
            programme,
        } => take_letter(mail_list, desk, resident.0, programme.0),
        Event::Answer {
            resident,
            programme,
            kind,
        } => answer_letter(mail_list, desk, (resident.0, programme.0), *kind),
        Event::Hear {
            programme,
            resident,
            kind,
        } => hear_letter(mail_list, desk, (programme.0, resident.0), *kind),
        Event::Close => None,
    }
}

fn offer_letter(mail_list: MailList, desk: u32, programme: u32, resident: u32) -> Option<Letter> {
    match mail_list {
        MailList::OffersOf => letter_if_same(programme, desk, (resident, None)),
        MailList::OffersTo => letter_if_same(resident, desk, (programme, None)),
        _ => None,
    }
}

fn take_letter(mail_list: MailList, desk: u32, resident: u32, programme: u32) -> Option<Letter> {
    match mail_list {
        MailList::Takes => letter_if_same(resident, desk, (programme, None)),
        _ => None,
    }
}

fn answer_letter(
    mail_list: MailList,
    desk: u32,
    resident_and_programme: (u32, u32),
    kind: AnswerKind,
) -> Option<Letter> {
    let (resident, programme) = resident_and_programme;
    match mail_list {
        MailList::AnswersOf => letter_if_same(resident, desk, (programme, Some(kind))),
        MailList::AnswersTo => letter_if_same(programme, desk, (resident, Some(kind))),
        _ => None,
    }
}

fn hear_letter(
    mail_list: MailList,
    desk: u32,
    programme_and_resident: (u32, u32),
    kind: AnswerKind,
) -> Option<Letter> {
    let (programme, resident) = programme_and_resident;
    match mail_list {
        MailList::Hears => letter_if_same(programme, desk, (resident, Some(kind))),
        _ => None,
    }
}

/// How many items this list of a desk has.
fn letter_count(mail_list: MailList, desk: u32, journal: &[Event]) -> usize {
    journal
        .iter()
        .filter(|event| letter_of(mail_list, desk, event).is_some())
        .count()
}

/// The item at index `index` in this list of a desk.
fn letter_at(mail_list: MailList, desk: u32, journal: &[Event], index: usize) -> Option<Letter> {
    let mut letters_before = index;
    for event in journal {
        if let Some(letter) = letter_of(mail_list, desk, event) {
            if letters_before == 0 {
                return Some(letter);
            }
            letters_before -= 1;
        }
    }
    None
}

fn rank_on(ranking: &[ProgrammeNo], programme: u32) -> usize {
    let index = ranking.iter().position(|ranked| ranked.0 == programme);
    index.unwrap_or(ranking.len())
}

/// The rank of the best programme whose offer the resident took, or the ranking's length if the
/// resident took no offer.
fn best_rank(ranking: &[ProgrammeNo], resident: ResidentNo, journal: &[Event]) -> usize {
    let mut best_so_far = ranking.len();
    for event in journal {
        if let Some((programme, _)) = letter_of(MailList::Takes, resident.0, event) {
            best_so_far = best_so_far.min(rank_on(ranking, programme));
        }
    }
    best_so_far
}

/// The answers that an offer by this programme calls for, if the resident takes it after these events.
fn answers_called(
    ranking: &[ProgrammeNo],
    resident: ResidentNo,
    earlier_events: &[Event],
    programme: u32,
) -> [Option<Letter>; 2] {
    let best_so_far = best_rank(ranking, resident, earlier_events);
    if rank_on(ranking, programme) >= best_so_far {
        return [Some((programme, Some(AnswerKind::Decline))), None];
    }
    let release_letter = match ranking.get(best_so_far) {
        Some(held_programme) => Some((held_programme.0, Some(AnswerKind::Release))),
        None => None,
    };
    [Some((programme, Some(AnswerKind::Hold))), release_letter]
}

/// The first answer that the resident owes and has not given.
fn first_answer_due(
    ranking: &[ProgrammeNo],
    resident: ResidentNo,
    journal: &[Event],
) -> Option<Letter> {
    let mut answers_given = letter_count(MailList::AnswersOf, resident.0, journal);
    for (index, event) in journal.iter().enumerate() {
        let Some((programme, _)) = letter_of(MailList::Takes, resident.0, event) else {
            continue;
        };
        let [first_answer, second_answer] = answers_called(
            ranking,
            resident,
            &journal[..index],
            programme,
        );
        let called_count = if second_answer.is_some() { 2 } else { 1 };
        if answers_given < called_count {
            return if answers_given == 0 {
                first_answer
            } else {
                second_answer
            };
        }
        answers_given -= called_count;
    }
    None
}

/// How many offers were sent to the resident and not taken.
fn offers_waiting(resident: ResidentNo, journal: &[Event]) -> usize {
    letter_count(MailList::OffersTo, resident.0, journal).saturating_sub(letter_count(
        MailList::Takes,
        resident.0,
        journal,
    ))
}

/// How many answers were sent to the programme and not heard.
fn answers_waiting(programme: ProgrammeNo, journal: &[Event]) -> usize {
    letter_count(MailList::AnswersTo, programme.0, journal).saturating_sub(letter_count(
        MailList::Hears,
        programme.0,
        journal,
    ))
}

fn room(cap: Capacity, most_messages: usize) -> usize {
    match cap {
        Capacity::Full => most_messages.max(1),
        Capacity::Each(messages) => messages as usize,
    }
}

/// Whether this event is a hear by the programme of an answer that gives back a place.
fn is_rejection(programme: ProgrammeNo, event: &Event) -> bool {
    match letter_of(MailList::Hears, programme.0, event) {
        Some((_, kind)) => kind != Some(AnswerKind::Hold),
        None => false,
    }
}

fn offers_out(programme: ProgrammeNo, journal: &[Event]) -> usize {
    let freed_places = journal
        .iter()
        .filter(|event| is_rejection(programme, event))
        .count();
    letter_count(MailList::OffersOf, programme.0, journal).saturating_sub(freed_places)
}

/// The first cause for which the event may not follow the list of events, or none.
pub(super) fn refusal(
    inst: &Instance,
    cap: Capacity,
    journal: &[Event],
    event: Event,
) -> Option<Refused> {
    if journal.contains(&Event::Close) {
        return Some(Refused::Closed);
    }
    match event {
        Event::Offer {
            programme,
            resident,
        } => offer_refusal(inst, cap, journal, programme, resident),
        Event::Take {
            resident,
            programme,
        } => take_refusal(inst, journal, resident, programme),
        Event::Answer {
            resident,
            programme,
            kind,
        } => answer_refusal(inst, cap, journal, resident, (programme, kind)),
        Event::Hear {
            programme,
            resident,
            kind,
        } => hear_refusal(inst, journal, programme, (resident, kind)),
        Event::Close => first_pending(inst, journal).map(Refused::StillPending),
    }
}

/// Whether the core and the slow definitions give the same answer.
pub(super) fn is_same(core_answer: Result<(), Refused>, slow_refusal: Option<Refused>) -> bool {
    match slow_refusal {
        Some(cause) => core_answer == Err(cause),
        None => core_answer.is_ok(),
    }
}

fn is_strange(inst: &Instance, programme: ProgrammeNo, resident: ResidentNo) -> bool
    ensures { result ≡ strange_desk inst.now programme resident }
{
    programme.0 >= inst.programmes() || resident.0 >= inst.residents()
}

fn offer_refusal(
    inst: &Instance,
    cap: Capacity,
    journal: &[Event],
    programme: ProgrammeNo,
    resident: ResidentNo,
) -> Option<Refused> {
    if is_strange(inst, programme, resident) {
        return Some(Refused::NoSuchDesk);
    }
    if offers_out(programme, journal) >= inst.quota(programme) as usize {
        return Some(Refused::NoPlace);
    }
    let next_resident = inst
        .list_of_programme(programme)
        .get(letter_count(MailList::OffersOf, programme.0, journal));
    if next_resident.copied() != Some(resident) {
        return Some(Refused::NotNext);
    }
    let most_offers = inst.list_of_resident(resident).len();
    if offers_waiting(resident, journal) >= room(cap, most_offers) {
        return Some(Refused::MailboxFull);
    }
    None
}

/// Why an event's item isn't the item in front, or none if it is.
fn front_fault(front_letter: Option<Letter>, expected_letter: Letter) -> Option<Refused> {
    match front_letter {
        None => Some(Refused::NothingWaiting),
        Some(front_letter) if front_letter == expected_letter => None,
        Some(_) => Some(Refused::WrongFront),
    }
}

fn take_refusal(
    inst: &Instance,
    journal: &[Event],
    resident: ResidentNo,
    programme: ProgrammeNo,
) -> Option<Refused> {
    if is_strange(inst, programme, resident) {
        return Some(Refused::NoSuchDesk);
    }
    if first_answer_due(inst.list_of_resident(resident), resident, journal).is_some() {
        return Some(Refused::AnswerDue);
    }
    let front_letter = letter_at(
        MailList::OffersTo,
        resident.0,
        journal,
        letter_count(MailList::Takes, resident.0, journal),
    );
    front_fault(front_letter, (programme.0, None))
}

fn answer_refusal(
    inst: &Instance,
    cap: Capacity,
    journal: &[Event],
    resident: ResidentNo,
    given_answer: (ProgrammeNo, AnswerKind),
) -> Option<Refused> {
    let (programme, kind) = given_answer;
    if is_strange(inst, programme, resident) {
        return Some(Refused::NoSuchDesk);
    }
    if first_answer_due(inst.list_of_resident(resident), resident, journal)
        != Some((programme.0, Some(kind)))
    {
        return Some(Refused::NotDue);
    }
    let most_answers = inst.list_of_programme(programme).len().saturating_mul(2);
    if answers_waiting(programme, journal) >= room(cap, most_answers) {
        return Some(Refused::MailboxFull);
    }
    None
}

fn hear_refusal(
    inst: &Instance,
    journal: &[Event],
    programme: ProgrammeNo,
    heard_answer: (ResidentNo, AnswerKind),
) -> Option<Refused> {
    if is_strange(inst, programme, heard_answer.0) {
        return Some(Refused::NoSuchDesk);
    }
    let front_letter = letter_at(
        MailList::AnswersTo,
        programme.0,
        journal,
        letter_count(MailList::Hears, programme.0, journal),
    );
    front_fault(front_letter, (heard_answer.0.0, Some(heard_answer.1)))
}

fn first_pending(inst: &Instance, journal: &[Event]) -> Option<Pending> {
    for number in 0..inst.residents() {
        let resident = ResidentNo(number);
        if offers_waiting(resident, journal) > 0 {
            return Some(Pending::Offers(resident));
        }
        if first_answer_due(inst.list_of_resident(resident), resident, journal).is_some() {
            return Some(Pending::Due(resident));
        }
    }
    for number in 0..inst.programmes() {
        let programme = ProgrammeNo(number);
        if answers_waiting(programme, journal) > 0 {
            return Some(Pending::Answers(programme));
        }
        let has_residents_left = letter_count(MailList::OffersOf, programme.0, journal)
            < inst.list_of_programme(programme).len();
        if has_residents_left && offers_out(programme, journal) < inst.quota(programme) as usize {
            return Some(Pending::Wish(programme));
        }
    }
    None
}
