//! The opening of a ledger.
ghost use Rattle.std.specs.Prelude.{◌≡◌, ℕ, [], Some, slice_get, IfOk, IfErr};
ghost use Rattle.mailbox_rule.specs.Lists.{PutList};
ghost use Rattle.exchange_core.specs.Mail.{Answered};

use crate::dockets::{SMALL_DOCKET, docket_of};
use crate::outcome::{Outcome, mark_call_begin, mark_call_end};
use exchange_core::{AnswerNote, Capacity, OfferNote};
use mailbox_rule::{ListPut, MailFault, PutEnd};
use match_model::Instance;
use offer_ledger::{EntryRefused, ExchangeIdentity, Ledger, LedgerFault, PutRefusal, Tally};
use std::alloc::Global;
use std::io::Write;
use std::marker::Brand;
use std::sync::ledger::Blank;
use test_support::events::{A, X};

// Two ends in memory that have no room.
#[tactic(auto, using(match_model::proofs::Prefixes::slice_get_push_parts))]
fn two_full_ends<M: Drop>(alloc: Global) -> Result<Vec<ListPut<M>>, MailFault>
    ensures { IfOk result (λ ends. (i : ℕ) (end : PutList M)
        → slice_get ends.items i ≡ Some end → end.puts ≡ []) }
{
    let mut ends = Vec::new(alloc);
    for _ in 0..2 {
        let Ok(()) = ends.push(ListPut::with_room(alloc, 0)?) else {
            return Err(MailFault::Memory);
        };
    }
    Ok(ends)
}

type Ends = (Vec<ListPut<OfferNote>>, Vec<ListPut<AnswerNote>>);

// Whether no event is entered, since the ends have no room.
fn enters_nothing<J: ExchangeIdentity, P: PutEnd<OfferNote>, Q: PutEnd<AnswerNote>>(
    ledger: &mut Ledger<J, P, Q>,
    inst: &Instance,
    tally: &mut Tally<J>,
) -> bool
    requires { inst.now ≡ J.inst }
{
    let full_refusal = Err(EntryRefused::PutRefused(PutRefusal::Full));
    ledger.enter_offer(inst, tally, A, X) == full_refusal && ledger.journal().is_empty()
}

// Opens a ledger over these ends. Returns whether the ledger is empty and accepts no event, or its fault with the ends.
fn ledger_opened_as<J: ExchangeIdentity>(
    alloc: Global,
    blank: Blank,
    inst: &Instance,
    cap: Capacity,
    ends: Ends,
) -> Result<bool, (LedgerFault, Ends)>
    requires instance { inst.now ≡ J.inst }
    requires capacity { cap ≡ J.cap }
    requires workers { J.workers ≡ 2 }
    requires blank { (blank.name ≡ J.name) × (blank.parts ≡ J.parts) × (J.parts ≡ 8) }
    requires offer_ends { (i : ℕ) (end : PutList ℕ)
        → slice_get ends.0.items i ≡ Some end → end.puts ≡ [] }
    requires answer_ends { (i : ℕ) (end : PutList Answered)
        → slice_get ends.1.items i ≡ Some end → end.puts ≡ [] }
    ensures handed_back { IfErr result (λ refused. refused.1 ≡ ends) }
{
    let (offer_ends, answer_ends) = ends;
    match Ledger::<J, _, _>::open(alloc, blank, inst, cap, 2, offer_ends, answer_ends) {
        Ok((mut ledger, mut tallies)) => match tallies.first_mut() {
            Some(tally) => Ok(enters_nothing(&mut ledger, inst, tally)),
            None => Ok(false),
        },
        Err(refused) => Err((refused.fault, (refused.offer_ends, refused.answer_ends))),
    }
}

// Opens a ledger as `ledger_opened_as` does, for a new exchange.
fn opened_anew(alloc: Global, inst: &Instance, ends: Ends) -> Result<bool, (LedgerFault, Ends)>
    requires offer_ends { (i : ℕ) (end : PutList ℕ)
        → slice_get ends.0.items i ≡ Some end → end.puts ≡ [] }
    requires answer_ends { (i : ℕ) (end : PutList Answered)
        → slice_get ends.1.items i ≡ Some end → end.puts ≡ [] }
    ensures handed_back { IfErr result (λ refused. refused.1 ≡ ends) }
{
    ledger_opened_as::<Brand>(alloc, Blank::new(8), inst, Capacity::Full, ends)
}

/// Opens a ledger of the small docket, over ends without room.
pub(super) fn open_full_ledger<W: Write>(alloc: Global, stdout: &mut W) -> Outcome {
    let (Some(docket), Ok(offer_ends), Ok(answer_ends)) = (
        docket_of(alloc, &[SMALL_DOCKET]),
        two_full_ends::<OfferNote>(alloc),
        two_full_ends::<AnswerNote>(alloc),
    ) else {
        return Outcome::Wrong;
    };
    mark_call_begin(stdout);
    let first_answer = opened_anew(alloc, docket.instance(), (offer_ends, answer_ends));
    mark_call_end(stdout);
    match first_answer {
        Ok(is_answer_right) => Outcome::of_first_answer(is_answer_right),
        Err((LedgerFault::Memory, ends)) => {
            let second_answer = opened_anew(alloc, docket.instance(), ends);
            Outcome::after_memory_fault(matches!(second_answer, Ok(true)))
        }
        Err(_) => Outcome::Wrong,
    }
}
