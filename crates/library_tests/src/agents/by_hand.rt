//! One exchange on one thread, through mailboxes with their rule, a ledger and agents.
mod desks;

ghost use Rattle.std.specs.Prelude.{◌≡◌, ℕ, ◌<◌, [], slice_get, Some, IfOk};
ghost use Rattle.std.specs.List.{All};
ghost use Rattle.match_model.specs.Instance.{IsProgramme, IsResident};
ghost use Rattle.exchange_core.specs.declared.event.Capacity.TheVariants.{Full};

use desks::{Programme, Resident};
use exchange_core::{AnswerNote, Capacity, Event, OfferNote};
use mailbox_rule::{MailFault, PutEnd, RuledPut, RuledTake, TakeEnd, mailbox};
use match_model::{Instance, ProgrammeNo, ResidentNo};
use offer_ledger::{EntryRefused, ExchangeIdentity, Ledger, PARTS, Tally};
use std::alloc::{AllocError, Global};
use std::marker::Brand;
use std::sync::Wait;
use std::sync::ledger::Blank;
use std::test::Fail;
use test_support::instances::{TWO_PLACES, instance_of};

/// A number of turns that is larger than any exchange here needs.
const TURNS: u32 = 20;

/// Takes the offers that wait at a resident's desk, and gives the answers that are due.
fn serve_resident<
    J: ExchangeIdentity,
    P: PutEnd<OfferNote>,
    Q: PutEnd<AnswerNote>,
    T: TakeEnd<OfferNote> + Drop,
>(
    inst: &Instance,
    ledger: &mut Ledger<J, P, Q>,
    tally: &mut Tally<J>,
    desk: &mut Resident<J, T>,
    resident: ResidentNo,
) -> Result<(), EntryRefused>
    requires { inst.now ≡ J.inst }
{
    for _ in 0..TURNS {
        let Some(programme) = desk.take(inst) else {
            break;
        };
        ledger.enter_take(inst, tally, resident, programme)?;
        for _ in 0..TURNS {
            let Some((programme, kind)) = desk.give() else {
                break;
            };
            ledger.enter_answer(inst, tally, resident, programme, kind)?;
        }
    }
    Ok(())
}

/// Hears the answers that wait at a programme's desk, and makes an offer if the programme has a wish.
fn serve_programme<
    J: ExchangeIdentity,
    P: PutEnd<OfferNote>,
    Q: PutEnd<AnswerNote>,
    T: TakeEnd<AnswerNote> + Drop,
>(
    inst: &Instance,
    ledger: &mut Ledger<J, P, Q>,
    tally: &mut Tally<J>,
    desk: &mut Programme<J, T>,
    programme: ProgrammeNo,
) -> Result<(), EntryRefused>
    requires { inst.now ≡ J.inst }
{
    for _ in 0..TURNS {
        let Some(answer) = desk.hear() else {
            break;
        };
        ledger.enter_hear(inst, tally, programme, answer.resident, answer.kind)?;
    }
    for _ in 0..TURNS {
        let Some(resident) = desk.offer(inst) else {
            break;
        };
        ledger.enter_offer(inst, tally, programme, resident)?;
    }
    Ok(())
}

/// The sending end of a mailbox with room for all offers that can be sent to a resident, and the
/// resident's agent.
fn resident_desk<J: ExchangeIdentity, R: Wait + Copy>(
    alloc: Global,
    rt: R,
    inst: &Instance,
    resident: ResidentNo,
) -> Result<(RuledPut<OfferNote, R>, Resident<J, RuledTake<OfferNote, R>>), MailFault>
    requires instance { inst.now ≡ J.inst }
    requires member { IsResident inst.now resident }
    ensures { IfOk result (λ put_and_desk. put_and_desk.0.puts ≡ []) }
{
    let room = inst.list_of_resident(resident).len().max(1);
    let (put, take) = mailbox(alloc, rt, room as u32)?;
    match Resident::open(alloc, inst, resident, take) {
        Some(desk) => Ok((put, desk)),
        None => Err(MailFault::Memory),
    }
}

/// The mailbox and the agent of each resident.
fn open_residents<J: ExchangeIdentity, R: Wait + Copy>(
    alloc: Global,
    rt: R,
    inst: &Instance,
) -> Result<
    (
        Vec<RuledPut<OfferNote, R>>,
        Vec<Resident<J, RuledTake<OfferNote, R>>>,
    ),
    MailFault,
>
    requires { inst.now ≡ J.inst }
    ensures { IfOk result (λ puts_and_desks. All (λ end. end.puts ≡ []) puts_and_desks.0.items) }
{
    let mut puts = Vec::new(alloc);
    let mut desks = Vec::new(alloc);
    for resident in 0..inst.residents() {
        let (put, desk) = resident_desk::<J, R>(alloc, rt, inst, ResidentNo(resident))?;
        let (Ok(()), Ok(())) = (puts.push(put), desks.push(desk)) else {
            return Err(MailFault::Memory);
        };
    }
    Ok((puts, desks))
}

/// The sending end of a mailbox with room for all answers that can be sent to a programme, and the
/// programme's agent.
fn programme_desk<J: ExchangeIdentity, R: Wait + Copy>(
    alloc: Global,
    rt: R,
    inst: &Instance,
    programme: ProgrammeNo,
) -> Result<
    (
        RuledPut<AnswerNote, R>,
        Programme<J, RuledTake<AnswerNote, R>>,
    ),
    MailFault,
>
    requires instance { inst.now ≡ J.inst }
    requires member { IsProgramme inst.now programme }
    ensures { IfOk result (λ put_and_desk. put_and_desk.0.puts ≡ []) }
{
    let room = (2 * inst.list_of_programme(programme).len()).max(1);
    let (put, take) = mailbox(alloc, rt, room as u32)?;
    match Programme::open(alloc, inst, programme, take) {
        Some(desk) => Ok((put, desk)),
        None => Err(MailFault::Memory),
    }
}

/// The mailbox and the agent of each programme.
fn open_programmes<J: ExchangeIdentity, R: Wait + Copy>(
    alloc: Global,
    rt: R,
    inst: &Instance,
) -> Result<
    (
        Vec<RuledPut<AnswerNote, R>>,
        Vec<Programme<J, RuledTake<AnswerNote, R>>>,
    ),
    MailFault,
>
    requires { inst.now ≡ J.inst }
    ensures { IfOk result (λ puts_and_desks. All (λ end. end.puts ≡ []) puts_and_desks.0.items) }
{
    let mut puts = Vec::new(alloc);
    let mut desks = Vec::new(alloc);
    for programme in 0..inst.programmes() {
        let (put, desk) = programme_desk::<J, R>(alloc, rt, inst, ProgrammeNo(programme))?;
        let (Ok(()), Ok(())) = (puts.push(put), desks.push(desk)) else {
            return Err(MailFault::Memory);
        };
    }
    Ok((puts, desks))
}

/// The programmes whose offers this resident took, by the journal.
fn taken_offers(
    alloc: Global,
    journal: &[Event],
    by_resident: ResidentNo,
) -> Result<Vec<OfferNote>, AllocError> {
    let mut notes = Vec::new(alloc);
    for event in journal {
        if let Event::Take {
            resident,
            programme,
        } = *event
            && resident == by_resident
        {
            notes.push(OfferNote { programme })?;
        }
    }
    Ok(notes)
}

/// The residents and the kinds of the answers that this programme heard, by the journal.
fn heard_answers(
    alloc: Global,
    journal: &[Event],
    by_programme: ProgrammeNo,
) -> Result<Vec<AnswerNote>, AllocError> {
    let mut notes = Vec::new(alloc);
    for event in journal {
        if let Event::Hear {
            programme,
            resident,
            kind,
        } = *event
            && programme == by_programme
        {
            notes.push(AnswerNote { resident, kind })?;
        }
    }
    Ok(notes)
}

/// Whether each resident's log has exactly the resident's takes in the journal.
fn resident_logs_agree<J: ExchangeIdentity, T: TakeEnd<OfferNote> + Drop>(
    alloc: Global,
    journal: &[Event],
    residents: &[Resident<J, T>],
) -> Result<bool, AllocError> {
    for (resident, desk) in (0..20_000).zip(residents) {
        let takes = taken_offers(alloc, journal, ResidentNo(resident))?;
        if desk.log() != takes.as_slice() {
            return Ok(false);
        }
    }
    Ok(true)
}

/// Whether each programme's log has exactly the programme's hears in the journal.
fn programme_logs_agree<J: ExchangeIdentity, U: TakeEnd<AnswerNote> + Drop>(
    alloc: Global,
    journal: &[Event],
    programmes: &[Programme<J, U>],
) -> Result<bool, AllocError> {
    for (programme, desk) in (0..2_000).zip(programmes) {
        let hears = heard_answers(alloc, journal, ProgrammeNo(programme))?;
        if desk.log() != hears.as_slice() {
            return Ok(false);
        }
    }
    Ok(true)
}

/// Serves each programme's desk and then each resident's desk, again and again until there is nothing left to do, and
/// then closes the exchange.
fn serve_to_close<
    J: ExchangeIdentity,
    P: PutEnd<OfferNote>,
    Q: PutEnd<AnswerNote>,
    T: TakeEnd<OfferNote> + Drop,
    U: TakeEnd<AnswerNote> + Drop,
>(
    inst: &Instance,
    ledger: &mut Ledger<J, P, Q>,
    tally: &mut Tally<J>,
    residents: &mut [Resident<J, T>],
    programmes: &mut [Programme<J, U>],
) -> Result<(), EntryRefused>
    requires { inst.now ≡ J.inst }
{
    for _ in 0..TURNS {
        for programme in 0..inst.programmes() {
            if let Some(desk) = programmes.get_mut(programme as usize) {
                serve_programme(inst, ledger, tally, desk, ProgrammeNo(programme))?;
            }
        }
        for resident in 0..inst.residents() {
            if let Some(desk) = residents.get_mut(resident as usize) {
                serve_resident(inst, ledger, tally, desk, ResidentNo(resident))?;
            }
        }
    }
    ledger.close(inst, tally)
}

/// How many events the exchange has, with its close. None if some desk's log differs from the
/// journal.
fn exchange<J: ExchangeIdentity, R: Wait + Copy>(
    rt: R,
    alloc: Global,
    blank: Blank,
    inst: &Instance,
) -> Result<Option<usize>, MailFault>
    requires instance { inst.now ≡ J.inst }
    requires capacity { J.cap ≡ Full }
    requires workers { J.workers ≡ 1 }
    requires blank { (blank.name ≡ J.name) × (blank.parts ≡ J.parts) × (J.parts ≡ 8) }
{
    let (offer_ends, mut resident_desks) = open_residents::<J, R>(alloc, rt, inst)?;
    let (answer_ends, mut programme_desks) = open_programmes::<J, R>(alloc, rt, inst)?;
    let Ok((mut ledger, mut tallies)) = Ledger::open(
        alloc,
        blank,
        inst,
        Capacity::Full,
        1,
        offer_ends,
        answer_ends,
    ) else {
        return Ok(None);
    };
    let Some(mut tally) = tallies.pop() else {
        return Ok(None);
    };
    let served = serve_to_close(
        inst,
        &mut ledger,
        &mut tally,
        &mut resident_desks,
        &mut programme_desks,
    );
    let journal = ledger.journal();
    let residents_agree = resident_logs_agree(alloc, journal, &resident_desks);
    let programmes_agree = programme_logs_agree(alloc, journal, &programme_desks);
    if served == Ok(()) && residents_agree == Ok(true) && programmes_agree == Ok(true) {
        return Ok(Some(journal.len()));
    }
    Ok(None)
}

#[test]
fn by_hand(rt: HostRuntime) -> Result<(), Fail> {
    let inst = instance_of(rt.alloc(), TWO_PLACES)?;
    let event_count = exchange::<Brand, HostRuntime>(rt, rt.alloc(), Blank::new(PARTS), &inst);
    assert!(rt; event_count == Ok(Some(17)) || event_count == Ok(Some(19)));
    Ok(())
}
