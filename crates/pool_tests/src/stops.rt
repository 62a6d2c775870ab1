//! Runs that are stopped at each call of `pass`. Each desk's log, and all messages that were put for the desk, are
//! compared with the journal.
use exchange_core::{AnswerNote, Capacity, Event, OfferNote};
use mailbox_rule::{TakeEnd, TakeReply};
use match_agents::{ProgrammeAgent, ResidentAgent};
use match_audit::{ReplayFault, replay};
use match_model::{Instance, ProgrammeNo, ResidentNo};
use match_pool::{Done, Ending, Ends, Mailboxes, run};
use std::alloc::{AllocError, Global};
use std::sync::Wait;
use std::test::Fail;
use std::thread::Threads;
use test_gates::gates::StopsFrom;
use test_support::markets::made_chain;

// The offers that the journal has for a resident; only those that the resident took, if `only_taken` is set.
fn offers_of(
    alloc: Global,
    journal: &[Event],
    of_resident: ResidentNo,
    only_taken: bool,
) -> Result<Vec<OfferNote>, AllocError> {
    let mut offers = Vec::new(alloc);
    for event in journal {
        let programme = match *event {
            Event::Offer {
                programme,
                resident,
            } if !only_taken && resident == of_resident => programme,
            Event::Take {
                resident,
                programme,
            } if only_taken && resident == of_resident => programme,
            _ => continue,
        };
        offers.push(OfferNote { programme })?;
    }
    Ok(offers)
}

// The answers that the journal has for a programme; only those that the programme heard, if `only_heard` is set.
fn answers_of(
    alloc: Global,
    journal: &[Event],
    of_programme: ProgrammeNo,
    only_heard: bool,
) -> Result<Vec<AnswerNote>, AllocError> {
    let mut answers = Vec::new(alloc);
    for event in journal {
        let (resident, kind) = match *event {
            Event::Answer {
                resident,
                programme,
                kind,
            } if !only_heard && programme == of_programme => (resident, kind),
            Event::Hear {
                programme,
                resident,
                kind,
            } if only_heard && programme == of_programme => (resident, kind),
            _ => continue,
        };
        answers.push(AnswerNote { resident, kind })?;
    }
    Ok(answers)
}

// Takes the messages that still wait in a mailbox, and appends them to those that were taken before, up to this
// number.
fn take_waiting_messages<M: Copy, T: TakeEnd<M> + Drop>(
    messages: &mut Vec<M>,
    mut end: T,
    most_messages: usize,
) -> Result<(), AllocError> {
    for _ in 0..most_messages {
        let TakeReply::Got(message) = end.take() else {
            break;
        };
        messages.push(message)?;
    }
    Ok(())
}

// Whether a resident's log has exactly the resident's takes of the journal, and the waiting messages are exactly the
// other offers to the resident.
fn resident_agrees<T: TakeEnd<OfferNote> + Drop>(
    alloc: Global,
    journal: &[Event],
    resident: ResidentNo,
    agent: ResidentAgent<T>,
) -> Result<bool, AllocError> {
    let mut messages = Vec::from_slice(alloc, agent.taken_log())?;
    let log_agrees = messages == offers_of(alloc, journal, resident, true)?;
    take_waiting_messages(&mut messages, agent.into_end(), journal.len())?;
    Ok(log_agrees && messages == offers_of(alloc, journal, resident, false)?)
}

// Whether a programme's log has exactly the programme's hears of the journal, and the waiting messages are exactly the
// other answers to the programme.
fn programme_agrees<T: TakeEnd<AnswerNote> + Drop>(
    alloc: Global,
    journal: &[Event],
    programme: ProgrammeNo,
    agent: ProgrammeAgent<T>,
) -> Result<bool, AllocError> {
    let mut messages = Vec::from_slice(alloc, agent.heard_log())?;
    let log_agrees = messages == answers_of(alloc, journal, programme, true)?;
    take_waiting_messages(&mut messages, agent.into_end(), journal.len())?;
    Ok(log_agrees && messages == answers_of(alloc, journal, programme, false)?)
}

// Whether a replay of the journal finds a closed exchange if the run closed, and else the fault `NotClosed`.
fn replay_finds_ending(
    alloc: Global,
    inst: &Instance,
    cap: Capacity,
    journal: &[Event],
    ending: Ending,
) -> bool {
    match replay(alloc, inst, cap, journal) {
        Ok(_) => ending == Ending::Closed,
        Err(ReplayFault::NotClosed) => ending == Ending::Stopped,
        Err(_) => false,
    }
}

// Whether each resident's log and mailbox agree with the journal.
fn residents_agree<T: TakeEnd<OfferNote> + Drop>(
    alloc: Global,
    journal: &[Event],
    agents: Vec<ResidentAgent<T>>,
) -> Result<bool, AllocError> {
    let mut resident = ResidentNo(0);
    for agent in agents {
        if !resident_agrees(alloc, journal, resident, agent)? {
            return Ok(false);
        }
        resident = ResidentNo(resident.0.saturating_add(1));
    }
    Ok(true)
}

// Whether each programme's log and mailbox agree with the journal.
fn programmes_agree<T: TakeEnd<AnswerNote> + Drop>(
    alloc: Global,
    journal: &[Event],
    agents: Vec<ProgrammeAgent<T>>,
) -> Result<bool, AllocError> {
    let mut programme = ProgrammeNo(0);
    for agent in agents {
        if !programme_agrees(alloc, journal, programme, agent)? {
            return Ok(false);
        }
        programme = ProgrammeNo(programme.0.saturating_add(1));
    }
    Ok(true)
}

// Whether all logs and mailboxes of a run agree with its journal, and a replay finds that the run ended as reported.
fn agrees_with_journal<M: Mailboxes>(
    alloc: Global,
    inst: &Instance,
    cap: Capacity,
    finished_run: Done<M>,
) -> Result<bool, AllocError> {
    let Done {
        ending,
        journal,
        who: _,
        assignment: _,
        entered: _,
        ends,
    } = finished_run;
    let Ends {
        offer_puts: _offer_puts,
        residents,
        answer_puts: _answer_puts,
        programmes,
    } = ends;
    Ok(
        replay_finds_ending(alloc, inst, cap, &journal, ending)
            && residents_agree(alloc, &journal, residents)?
            && programmes_agree(alloc, &journal, programmes)?,
    )
}

// Whether a run by two workers ends as it should whose gate stops it from the call of `pass` with
// this number on.
fn stops_well<R: Threads + Wait + Sync + Send + Copy>(
    rt: R,
    alloc: Global,
    inst: &Instance,
    cap: Capacity,
    first_pass: u64,
) -> bool {
    match run(rt, alloc, inst, cap, 2, &StopsFrom::new(first_pass)) {
        Ok(finished_run) => agrees_with_journal(alloc, inst, cap, finished_run) == Ok(true),
        Err(_) => false,
    }
}

#[test]
fn a_run_that_is_stopped_at_any_pass_is_its_journal(rt: HostRuntime) -> Result<(), Fail> {
    // a chain of thirty links has sixty acceptable pairs
    let inst = made_chain(rt.alloc(), 30)?;
    for first_pass in 1..=160 {
        for cap in [Capacity::Full, Capacity::Each(1)] {
            assert!(rt;
                stops_well(rt, rt.alloc(), &inst, cap, first_pass),
                "from {first_pass} on, {cap:?}"
            );
        }
    }
    Ok(())
}
