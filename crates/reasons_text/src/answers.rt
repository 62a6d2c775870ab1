//! The answers that a resident gets, and counts of these answers.
ghost use Rattle.std.specs.Prelude.{◌≡◌, length, count_by};
ghost use Rattle.reasons_text.specs.Answers.{ranked_back, withdrew};

use match_model::ProgrammeNo;
use match_reasons::Why;

/// The answers that a resident gets: the programmes on the resident's R record, in order, and a reason for each.
#[derive(Drop)]
pub struct Answers {
    /// The programmes of the resident's R record, in order.
    pub programmes: Vec<ProgrammeNo>,
    /// The reason for each of these programmes, in the same order.
    pub reasons: Vec<Why>,
}

/// How many programmes the answers are about, how many of these programmes ranked the resident, and how many answers
/// say that the programme or the resident withdrew.
#[derive(Clone, Copy, Debug)]
pub(crate) struct AnswerTally {
    pub(crate) listed_count: usize,
    pub(crate) ranked_back_count: usize,
    pub(crate) withdrawal_count: usize,
}

// Whether this answer says that the programme ranked the resident.
fn is_ranked_back(reason: &Why) -> bool
    ensures { result ≡ ranked_back reason.now }
{
    match reason {
        Why::Withdrawn | Why::NotListed | Why::NotRanked => false,
        Why::Matched | Why::PrefersOwn { .. } | Why::Full { .. } | Why::Blocking => true,
    }
}

// Whether this answer says that the programme or the resident withdrew.
fn is_withdrawal(reason: &Why) -> bool
    ensures { result ≡ withdrew reason.now }
{
    match reason {
        Why::Withdrawn => true,
        _ => false,
    }
}

/// Counts the answers of each kind.
pub(crate) fn count_answers(reasons: &[Why]) -> AnswerTally
    ensures listed { result.listed_count ≡ length reasons.now }
    ensures ranked_back { result.ranked_back_count ≡ count_by ranked_back reasons.now }
    ensures withdrew { result.withdrawal_count ≡ count_by withdrew reasons.now }
{
    AnswerTally {
        listed_count: reasons.len(),
        ranked_back_count: reasons
            .iter()
            .filter(|reason| is_ranked_back(reason))
            .count(),
        withdrawal_count: reasons
            .iter()
            .filter(|reason| is_withdrawal(reason))
            .count(),
    }
}
