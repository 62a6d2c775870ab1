//! The result of the match, worked out by one thread, and whether a sheet is this result.
//!
//! The exchange runs in one order, with mailboxes that are never full. No call here waits, so every call returns.
ghost use Rattle.std.specs.Prelude.{◌≡◌, ◌↔◌, List, IfOk, IfErr, IfSome, IsTrue, MatchOption};
ghost use Rattle.match_model.specs.Instance.{IsProgramme, IsResident};
ghost use Rattle.exchange_core.specs.declared.event.Event.{Event};
ghost use Rattle.exchange_core.specs.Legal.{IsAllowed, IsClosed};
ghost use Rattle.exchange_core.specs.Shown.{Shows};
ghost use Rattle.exchange_core.specs.Steps.{IsCoreOf};
ghost use Rattle.settle_law.specs.Stable.{IsStable, IsSettled};
ghost use Rattle.match_audit.specs.Result.{IsReached, IsUnlikeResult};

use crate::auditor::AuditFault;
use crate::replayer::first_difference;
use exchange_core::{Capacity, Core, Event};
use match_model::{Assignment, Instance, ProgrammeNo, ResidentNo};
use settle_law::{law_bound, law_one_settled, law_settled};
use std::alloc::Global;

/// The settled assignment of an instance. This assignment is stable, an instance has only one settled assignment, and
/// every closed exchange leads to it. The only fault is out of memory.
pub fn settle(alloc: Global, inst: &Instance) -> Result<Assignment, AuditFault>
    ensures stable { IfOk result (IsStable inst.now) }
    ensures settled { IfOk result (IsSettled inst.now) }
    ensures memory { IfErr result (λ fault. fault ≡ AuditFault.Memory) }
{
    // For the proof alone: a closed legal list of events leads to a stable and settled assignment.
    law_settled();
    let Ok(mut core) = Core::new(alloc, inst, Capacity::Full) else {
        return Err(AuditFault::Memory);
    };
    let Ok(mut assignment) = Assignment::new(alloc, inst.residents()) else {
        return Err(AuditFault::Memory);
    };
    offer_down_the_lists(&mut core, inst);
    step_to_the_close(&mut core, inst);
    core.assignment(&mut assignment);
    Ok(assignment)
}

/// The first resident for whom a sheet differs from the match's result, or none if the sheet is the result. If the
/// sheet has no entry for a resident, this is a difference. No journal is needed. The only fault is out of memory.
pub fn first_unlike_result(
    alloc: Global,
    inst: &Instance,
    sheet: &Assignment,
) -> Result<Option<ResidentNo>, AuditFault>
    ensures exact { IfOk result (λ first.
        MatchOption first (IsSettled inst.now sheet.now) (IsUnlikeResult inst.now sheet.now)) }
    ensures memory { IfErr result (λ fault. fault ≡ AuditFault.Memory) }
{
    match settle(alloc, inst) {
        Ok(settled_assignment) => Ok(first_difference(sheet, &settled_assignment)),
        Err(fault) => Err(fault),
    }
}

/// Whether a sheet is the match's result, found without a journal. The only fault is out of memory.
pub fn is_result(alloc: Global, inst: &Instance, sheet: &Assignment) -> Result<bool, AuditFault>
    ensures exact { IfOk result (λ is_same. IsTrue is_same ↔ IsSettled inst.now sheet.now) }
    ensures memory { IfErr result (λ fault. fault ≡ AuditFault.Memory) }
{
    // For the proof alone: an instance has only one settled assignment.
    law_one_settled();
    match first_unlike_result(alloc, inst, sheet) {
        Ok(None) => Ok(true),
        Ok(Some(_)) => Ok(false),
        Err(fault) => Err(fault),
    }
}

/// Lets each programme make offers down its list. If a resident releases a programme, that programme offers next. At
/// the end no programme should have a wish, but no clause relies on this: `step_to_the_close` enters all events that
/// are left.
fn offer_down_the_lists(core: &mut Core, inst: &Instance)
    requires core { IsCoreOf inst.now core.old }
    requires reached { IsReached inst.now core.old }
    ensures core { IsCoreOf inst.now core.new }
    ensures reached { IsReached inst.now core.new }
{
    for first_number in 0..inst.programmes() {
        let mut programme = ProgrammeNo(first_number);
        // Each turn enters an offer, or ends a chain of programmes that were released one after another.
        for _turn in 0..2 * inst.pairs() + 1 {
            match offer_once(core, inst, programme) {
                Some(answered_programme) => programme = answered_programme,
                None if programme.0 == first_number => break,
                None => programme = ProgrammeNo(first_number),
            }
        }
    }
}

/// Enters the next offer of a programme, and all answers that follow from the offer. Returns the programme that was
/// answered last. The result is none if the programme has no next offer, or if one of the events may not follow.
fn offer_once(core: &mut Core, inst: &Instance, programme: ProgrammeNo) -> Option<ProgrammeNo>
    requires core { IsCoreOf inst.now core.old }
    requires reached { IsReached inst.now core.old }
    requires member { IsProgramme inst.now programme }
    ensures core { IsCoreOf inst.now core.new }
    ensures reached { IsReached inst.now core.new }
    ensures member { IfSome result (IsProgramme inst.now) }
{
    let resident = core.next_offer(inst, programme)?;
    let offer = Event::Offer {
        programme,
        resident,
    };
    let take = Event::Take {
        resident,
        programme,
    };
    if !enter_event(core, inst, offer) || !enter_event(core, inst, take) {
        return None;
    }
    let first_answered_programme = answer_once(core, inst, resident)?;
    // If the offer is held, the programme held until then is released.
    match answer_once(core, inst, resident) {
        Some(second_answered_programme) => Some(second_answered_programme),
        None => Some(first_answered_programme),
    }
}

/// Enters the first answer that a resident owes, and the hear of this answer. Returns the programme that heard it.
/// The result is none if no answer is due, or if one of the two events may not follow.
fn answer_once(core: &mut Core, inst: &Instance, resident: ResidentNo) -> Option<ProgrammeNo>
    requires core { IsCoreOf inst.now core.old }
    requires reached { IsReached inst.now core.old }
    requires member { IsResident inst.now resident }
    ensures core { IsCoreOf inst.now core.new }
    ensures reached { IsReached inst.now core.new }
    ensures member { IfSome result (IsProgramme inst.now) }
{
    let (programme, kind) = core.next_answer(resident)?;
    let answer = Event::Answer {
        resident,
        programme,
        kind,
    };
    let hear = Event::Hear {
        programme,
        resident,
        kind,
    };
    if !enter_event(core, inst, answer) || !enter_event(core, inst, hear) {
        return None;
    }
    Some(programme)
}

/// Enters an event if the event may follow, and returns whether it was entered.
fn enter_event(core: &mut Core, inst: &Instance, event: Event) -> bool
    requires core { IsCoreOf inst.now core.old }
    requires reached { IsReached inst.now core.old }
    ensures core { IsCoreOf inst.now core.new }
    ensures reached { IsReached inst.now core.new }
    ensures allowed { IsTrue result
        → (events : List Event) × IsAllowed inst.now Capacity.Full events event }
{
    core.step(inst, event).is_ok()
}

/// Enters events until the exchange is closed. There are at most as many turns as a legal list has events.
fn step_to_the_close(core: &mut Core, inst: &Instance)
    requires core { IsCoreOf inst.now core.old }
    requires reached { IsReached inst.now core.old }
    ensures core { IsCoreOf inst.now core.new }
    ensures closed { (events : List Event)
        × Shows inst.now Capacity.Full events core.new × IsClosed events }
{
    law_bound();
    for _turn in 0..6 * inst.pairs() + 2 {
        let Some(event) = core.some_enabled(inst) else {
            return;
        };
        let Ok(()) = core.step(inst, event) else {
            unreachable!("the event may follow");
        };
    }
    unreachable!("a legal list has no more events")
}
