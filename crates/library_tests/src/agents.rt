//! The agents of one docket, over ends in memory, and over an end whose mailbox has lost its sending end.
mod by_hand;
mod desk;

ghost use Rattle.std.specs.Prelude.{◌≡◌, []};
ghost use Rattle.mailbox_rule.specs.Replies.{MatchTake};

use desk::{ProgrammeRun, ResidentRun};
use exchange_core::{AnswerKind, AnswerNote, OfferNote};
use mailbox_rule::{ListTake, TakeEnd, TakeReply};
use match_agents::Heard;
use match_model::{ProgrammeNo, ResidentNo};
use std::alloc::Global;
use std::test::Fail;
use test_support::events::{A, B, HOLD, RELEASE, X, Y, Z};
use test_support::instances::{TWO_PLACES, instance_of};

// What a resident's agent takes out of its mailbox, and the two answers that it then gives.
type ResidentTurn = (
    Option<Heard<OfferNote>>,
    [Option<(ProgrammeNo, AnswerKind)>; 2],
);

const OFFER_OF_A: OfferNote = OfferNote { programme: A };

const OFFER_OF_B: OfferNote = OfferNote { programme: B };

const RESIDENT_TURNS: [ResidentTurn; 3] = [
    (Some(Heard::Got(OFFER_OF_A)), [Some((A, HOLD)), None]),
    (
        Some(Heard::Got(OFFER_OF_B)),
        [Some((B, HOLD)), Some((A, RELEASE))],
    ),
    (Some(Heard::LogFull), [None, None]),
];

// Whether the desk takes offers and gives answers as expected, and then has the expected log.
fn takes_so<T: TakeEnd<OfferNote> + Drop>(
    run: &mut ResidentRun<T>,
    wanted_turns: &[ResidentTurn],
    expected_log: &[OfferNote],
) -> bool {
    for (heard, given_answers) in wanted_turns {
        if run.take() != *heard || run.give_two() != *given_answers {
            return false;
        }
    }
    run.log() == expected_log
}

// Opens the desk of X over this end. Returns whether the desk takes offers and gives answers as expected.
fn resident_takes<T: TakeEnd<OfferNote> + Drop>(
    alloc: Global,
    end: T,
    wanted_turns: &[ResidentTurn],
    expected_log: &[OfferNote],
) -> bool
    requires { T.taken end ≡ [] }
{
    let Ok(inst) = instance_of(alloc, TWO_PLACES) else {
        return false;
    };
    match ResidentRun::open(alloc, inst, X, end) {
        Some(mut run) => takes_so(&mut run, wanted_turns, expected_log),
        None => false,
    }
}

#[test]
fn releases_the_one_before(rt: HostRuntime) -> Result<(), Fail> {
    let expected_log = [OFFER_OF_A, OFFER_OF_B];
    let end = ListTake::of(expected_log.to_vec(rt.alloc())?);
    assert!(rt; resident_takes(rt.alloc(), end, &RESIDENT_TURNS, &expected_log));
    Ok(())
}

// The answers that wait for A.
const ANSWERS_TO_A: [AnswerNote; 3] = [
    AnswerNote {
        resident: Y,
        kind: HOLD,
    },
    AnswerNote {
        resident: X,
        kind: HOLD,
    },
    AnswerNote {
        resident: X,
        kind: RELEASE,
    },
];

// Whether the desk hears these answers, gets the reply `last_reply` at the next look, and then has the
// expected log.
fn hears_so<T: TakeEnd<AnswerNote> + Drop>(
    run: &mut ProgrammeRun<T>,
    answers: &[AnswerNote],
    last_reply: Heard<AnswerNote>,
) -> bool {
    for answer in answers {
        if run.hear() != Heard::Got(*answer) {
            return false;
        }
    }
    run.hear() == last_reply && run.log() == answers
}

// Whether the desk wants to offer to these residents, one after another.
fn offers_so<T: TakeEnd<AnswerNote> + Drop>(
    run: &mut ProgrammeRun<T>,
    wanted_residents: &[Option<ResidentNo>],
) -> bool {
    for wish in wanted_residents {
        if run.offer() != *wish {
            return false;
        }
    }
    true
}

// Opens the desk of A over this end. Returns whether the desk offers to X and Y, hears the answers and no others,
// and then offers to the expected residents.
fn programme_hears<T: TakeEnd<AnswerNote> + Drop>(
    alloc: Global,
    end: T,
    answers: &[AnswerNote],
    last_reply: Heard<AnswerNote>,
    later_offers: &[Option<ResidentNo>],
) -> bool
    requires { T.taken end ≡ [] }
{
    let Ok(inst) = instance_of(alloc, TWO_PLACES) else {
        return false;
    };
    let Some(mut run) = ProgrammeRun::open(alloc, inst, A, end) else {
        return false;
    };
    offers_so(&mut run, &[Some(X), Some(Y), None])
        && hears_so(&mut run, answers, last_reply)
        && offers_so(&mut run, later_offers)
}

#[test]
fn wishes_where_a_place_is_free(rt: HostRuntime) -> Result<(), Fail> {
    let end = ListTake::of(ANSWERS_TO_A.to_vec(rt.alloc())?);
    assert!(rt; programme_hears(rt.alloc(), end, &ANSWERS_TO_A, Heard::Nothing, &[Some(Z)]));
    Ok(())
}

// A receiving end whose mailbox has lost its sending end.
#[derive(Drop)]
struct DesertedEnd;

impl<M> TakeEnd<M> for DesertedEnd {
    ghost taken = { λ _. [] };

    ghost may_lack = { λ _. ⊥ };

    ghost may_go = { λ _. Unit {0} };

    fn take(&mut self) -> TakeReply<M> {
        TakeReply::Gone
    }
}

#[test]
fn the_sending_end_is_gone(rt: HostRuntime) {
    let gone_turn = [(Some(Heard::Gone), [None, None])];
    assert!(rt; resident_takes(rt.alloc(), DesertedEnd, &gone_turn, &[]));
    assert!(rt; programme_hears(rt.alloc(), DesertedEnd, &[], Heard::Gone, &[None]));
}
