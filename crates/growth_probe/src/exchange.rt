//! The calls of the core, the mailboxes, the agents and the pool.
ghost use Rattle.std.specs.Prelude.{◌≡◌, [], IfOk};
ghost use Rattle.exchange_core.specs.Steps.{IsCoreOf};

use crate::dockets::{SMALL_DOCKET, docket_of};
use crate::outcome::{Outcome, mark_call_begin, mark_call_end};
use exchange_core::{AnswerNote, Capacity, Core, CoreFault, OfferNote, Refused};
use mailbox_rule::{
    ListPut, ListTake, MailFault, PutEnd, PutReply, RuledPut, RuledTake, TakeEnd, TakeReply,
    mailbox,
};
use match_agents::{Heard, ProgrammeAgent, ResidentAgent};
use match_model::{Instance, ProgrammeNo, ResidentNo};
use match_pool::{Ending, OpenGate, RunFault, run};
use std::alloc::{AllocError, Global};
use std::io::Write;
use std::sync::Wait;
use std::thread::Threads;
use test_support::events::{A, B, HOLD, RELEASE, X, Y, Z, take};

// Whether the core refuses a take by a resident who does not exist.
fn refuses_a_stranger(mut core: Core, inst: &Instance) -> bool
    requires { IsCoreOf inst.now core }
{
    core.step(inst, take(ResidentNo(7), A)) == Err(Refused::NoSuchDesk)
}

/// Opens a core.
pub(super) fn core<W: Write>(alloc: Global, stdout: &mut W) -> Outcome {
    let Some(docket) = docket_of(alloc, &[SMALL_DOCKET]) else {
        return Outcome::Wrong;
    };
    let inst = docket.instance();
    mark_call_begin(stdout);
    let first_answer = Core::new(alloc, inst, Capacity::Full);
    mark_call_end(stdout);
    match first_answer {
        Ok(core) => Outcome::of_first_answer(refuses_a_stranger(core, inst)),
        Err(CoreFault::Memory) => match Core::new(alloc, inst, Capacity::Full) {
            Ok(core) => Outcome::after_memory_fault(refuses_a_stranger(core, inst)),
            Err(_) => Outcome::Wrong,
        },
        Err(_) => Outcome::Wrong,
    }
}

// Whether the mailbox accepts two messages and returns the first.
fn has_two_places<R: Wait + Copy>(mut put: RuledPut<u32, R>, mut take: RuledTake<u32, R>) -> bool {
    put.put(5) == PutReply::Done
        && put.put(6) == PutReply::Done
        && put.put(7) == PutReply::Full(7)
        && take.take() == TakeReply::Got(5)
        && take.take() == TakeReply::Got(6)
        && take.take() == TakeReply::Nothing
}

/// Opens a mailbox with room for two messages.
pub(super) fn mailbox_of_two<R: Wait + Copy + Drop, W: Write>(
    rt: R,
    alloc: Global,
    stdout: &mut W,
) -> Outcome {
    mark_call_begin(stdout);
    let first_answer = mailbox::<u32, R>(alloc, rt, 2);
    mark_call_end(stdout);
    match first_answer {
        Ok((put, take)) => Outcome::of_first_answer(has_two_places(put, take)),
        Err(MailFault::Memory) => match mailbox::<u32, R>(alloc, rt, 2) {
            Ok((put, take)) => Outcome::after_memory_fault(has_two_places(put, take)),
            Err(_) => Outcome::Wrong,
        },
        Err(_) => Outcome::Wrong,
    }
}

// Whether the list accepts one message and refuses a second.
fn has_one_place(mut list: ListPut<u32>) -> bool {
    list.put(5) == PutReply::Done && list.put(6) == PutReply::Full(6)
}

/// Opens a list with room for one message.
pub(super) fn list_put<W: Write>(alloc: Global, stdout: &mut W) -> Outcome {
    mark_call_begin(stdout);
    let first_answer = ListPut::with_room(alloc, 1);
    mark_call_end(stdout);
    match first_answer {
        Ok(list) => Outcome::of_first_answer(has_one_place(list)),
        Err(MailFault::Memory) => match ListPut::with_room(alloc, 1) {
            Ok(list) => Outcome::after_memory_fault(has_one_place(list)),
            Err(_) => Outcome::Wrong,
        },
        Err(_) => Outcome::Wrong,
    }
}

// Two programmes, the first with two places, and three residents.
const QUOTAS_DOCKET: &str = "Q,a,2\nQ,b,1\nP,a,x,y,z\nP,b,x\nR,x,b,a\nR,y,a\nR,z,a\n";

// The answers that wait for the first programme.
fn two_answers(alloc: Global) -> Result<ListTake<AnswerNote>, AllocError>
    ensures { IfOk result (λ end. end.taken ≡ []) }
{
    Ok(ListTake::of(Vec::from_array(
        alloc,
        [
            AnswerNote {
                resident: Y,
                kind: HOLD,
            },
            AnswerNote {
                resident: X,
                kind: RELEASE,
            },
        ],
    )?))
}

// Whether the programme hears its two answers and no third answer.
fn hears_two_answers<T: TakeEnd<AnswerNote>>(agent: &mut ProgrammeAgent<T>) -> bool {
    agent.heard_log().is_empty()
        && matches!(agent.hear(), Heard::Got(_))
        && matches!(agent.hear(), Heard::Got(_))
        && agent.hear() == Heard::Nothing
}

/// Opens a programme's agent over an end with two answers.
pub(super) fn programme_agent<W: Write>(alloc: Global, stdout: &mut W) -> Outcome {
    let (Some(docket), Ok(waiting_answers)) = (
        docket_of(alloc, &[QUOTAS_DOCKET]),
        two_answers(alloc),
    ) else {
        return Outcome::Wrong;
    };
    let inst = docket.instance();
    if inst.programmes() != 2 {
        return Outcome::Wrong;
    }
    mark_call_begin(stdout);
    let first_answer = ProgrammeAgent::open(alloc, inst, A, waiting_answers);
    mark_call_end(stdout);
    match first_answer {
        Ok(mut agent) => Outcome::of_first_answer(hears_two_answers(&mut agent)),
        Err(refused) => match ProgrammeAgent::open(alloc, inst, A, refused.end) {
            Ok(mut agent) => Outcome::after_memory_fault(hears_two_answers(&mut agent)),
            Err(_) => Outcome::Wrong,
        },
    }
}

// The offers that wait for the first resident.
fn two_offers(alloc: Global) -> Result<ListTake<OfferNote>, AllocError>
    ensures { IfOk result (λ end. end.taken ≡ []) }
{
    let offer_notes = [OfferNote { programme: A }, OfferNote { programme: B }];
    Ok(ListTake::of(Vec::from_array(alloc, offer_notes)?))
}

// Whether the resident takes the first of the offers that wait.
fn takes_one_offer<T: TakeEnd<OfferNote>>(agent: &mut ResidentAgent<T>) -> bool {
    agent.taken_log().is_empty()
        && agent.ready()
        && agent.take() == Heard::Got(OfferNote { programme: A })
}

/// Opens a resident's agent over an end with two offers.
pub(super) fn resident_agent<W: Write>(alloc: Global, stdout: &mut W) -> Outcome {
    let (Some(docket), Ok(waiting_offers)) = (docket_of(alloc, &[QUOTAS_DOCKET]), two_offers(alloc))
    else {
        return Outcome::Wrong;
    };
    let inst = docket.instance();
    if inst.residents() != 3 {
        return Outcome::Wrong;
    }
    mark_call_begin(stdout);
    let first_answer = ResidentAgent::open(alloc, inst, X, waiting_offers);
    mark_call_end(stdout);
    match first_answer {
        Ok(mut agent) => Outcome::of_first_answer(takes_one_offer(&mut agent)),
        Err(refused) => match ResidentAgent::open(alloc, inst, X, refused.end) {
            Ok(mut agent) => Outcome::after_memory_fault(takes_one_offer(&mut agent)),
            Err(_) => Outcome::Wrong,
        },
    }
}

// Whether a run with three residents closed with the expected matches, or the run's fault.
fn closes_as_expected<R: Threads + Wait + Sync + Send + Copy>(
    rt: R,
    alloc: Global,
    inst: &Instance,
) -> Result<bool, RunFault> {
    match run(rt, alloc, inst, Capacity::Full, 2, &OpenGate) {
        Ok(finished_run) => {
            let mut is_answer_right = finished_run.ending == Ending::Closed
                && finished_run.assignment.len() == 3;
            for (resident, programme) in [(X, B), (Y, A), (Z, A)] {
                is_answer_right = is_answer_right
                    && resident.0 < finished_run.assignment.len()
                    && finished_run.assignment.get(resident) == Some(programme);
            }
            Ok(is_answer_right)
        }
        Err(fault) => Err(fault),
    }
}

/// Runs an exchange with two workers.
pub(super) fn whole_run<R: Threads + Wait + Sync + Send + Copy, W: Write>(
    rt: R,
    alloc: Global,
    stdout: &mut W,
) -> Outcome {
    let Some(docket) = docket_of(alloc, &[QUOTAS_DOCKET]) else {
        return Outcome::Wrong;
    };
    let inst = docket.instance();
    mark_call_begin(stdout);
    let first_answer = closes_as_expected(rt, alloc, inst);
    mark_call_end(stdout);
    let lacks_memory = first_answer == Err(RunFault::Memory);
    if !lacks_memory && first_answer != Err(RunFault::Thread) {
        return Outcome::of_first_answer(first_answer == Ok(true));
    }
    let is_second_right = closes_as_expected(rt, alloc, inst) == Ok(true);
    if lacks_memory {
        Outcome::after_memory_fault(is_second_right)
    } else {
        Outcome::after_thread_fault(is_second_right)
    }
}
