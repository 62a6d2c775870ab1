//! The sentences that answer a question.
ghost use Rattle.std.specs.Prelude.{◌≡◌, ◌++◌, ◌==◌, IfOk, OnOk, string_bytes};
ghost use Rattle.std.specs.List.{position_from};
ghost use Rattle.reasons_text.specs.Lines as spec;
ghost use Rattle.reasons_text.specs.Lines.{ending, first_line, has_withdrawn, line};
ghost use Rattle.reasons_text.specs.Naming.{naming_of};

use crate::answers::{AnswerTally, count_answers};
use crate::names::Names;
use match_model::{ProgrammeNo, ResidentNo};
use match_reasons::Why;
use std::alloc::{AllocError, Global};
use std::fmt;

// A rank that is written in words, such as 1st, 2nd or 3rd. The rank is stored as a number from 0.
#[derive(Clone, Copy)]
pub(crate) struct Ordinal(pub(crate) usize);

impl Ordinal {
    // The letters after a rank's number: st, nd, rd or th.
    #[tactic(auto, unfolding(crate::specs::Lines::ending))]
    fn ending(&self) -> &'static str
        ensures { result.now ≡ ending self.now.0 }
    {
        match (self.0 % 100, self.0 % 10) {
            (10..=12, _) => "th",
            (_, 0) => "st",
            (_, 1) => "nd",
            (_, 2) => "rd",
            _ => "th",
        }
    }
}

impl fmt::Display for Ordinal {
    ghost use Rattle.std.specs.Prelude.{Some};
    ghost use Rattle.reasons_text.specs.Lines.{place_text};

    ghost output = { λ place. Some (place_text place.0) };

    #[tactic(auto, unfolding(crate::specs::Lines::place_text))]
    fn fmt<W: fmt::Write>(&self, f: &mut fmt::Formatter<W>) -> fmt::Result {
        let number = (self.0 as u64).saturating_add(1);
        let ending = self.ending();
        write!(f, "{number}{ending}")
    }
}

// A count that is written as a text. Zero is written as `none`.
#[derive(Clone, Copy)]
struct Count(usize);

impl fmt::Display for Count {
    ghost use Rattle.std.specs.Prelude.{Some};
    ghost use Rattle.reasons_text.specs.Lines.{count_text};

    ghost output = { λ count. Some (count_text count.0) };

    #[tactic(auto, unfolding(crate::specs::Lines::count_text))]
    fn fmt<W: fmt::Write>(&self, f: &mut fmt::Formatter<W>) -> fmt::Result {
        match self.0 {
            0 => f.write_str("none"),
            number => write!(f, "{number}"),
        }
    }
}

// The sentence for a resident if the programme gave all its places to residents whom it ranked higher.
#[tactic(auto, unfolding(crate::specs::Lines::full_sentence))]
fn full_sentence(
    alloc: Global,
    rank: usize,
    last_rank: Option<usize>,
    quota: u32,
    without_ranks: bool,
) -> Result<String, AllocError>
    ensures { IfOk result (λ text.
        string_bytes text ≡ spec.full_sentence without_ranks rank last_rank quota) }
{
    let Some(last_rank) = last_rank else {
        return format!(in alloc; "it had no places.");
    };
    if without_ranks {
        return format!(in alloc; "its places went to residents it ranks above you.");
    }
    let ordinal = Ordinal(rank);
    let last_ordinal = Ordinal(last_rank);
    if quota == 1 {
        return format!(in alloc;
            "it ranked you {ordinal}. Its one place went to the resident it ranked {last_ordinal}."
        );
    }
    format!(in alloc;
        "it ranked you {ordinal}. Its {quota} places went to residents it ranked higher, the last of them {last_ordinal}."
    )
}

// The sentence about a programme if the programme or the resident withdrew.
#[tactic(auto, unfolding(crate::specs::Lines::withdrawn_sentence))]
fn withdrawn_sentence(
    alloc: Global,
    names: &Names,
    resident: ResidentNo,
) -> Result<String, AllocError>
    ensures { IfOk result (λ text. string_bytes text
        ≡ spec.withdrawn_sentence (spec.has_withdrawn (naming_of names.now) resident)) }
{
    if names.resident_withdrew(resident) {
        format!(in alloc; "you withdrew from the match.")
    } else {
        format!(in alloc; "it withdrew from the match.")
    }
}

// The sentence for a resident about one programme.
#[tactic(auto, unfolding(crate::specs::Lines::sentence))]
fn sentence(
    alloc: Global,
    names: &Names,
    resident: ResidentNo,
    reason: Why,
    without_ranks: bool,
) -> Result<String, AllocError>
    ensures { IfOk result (λ text.
        string_bytes text ≡ spec.sentence (naming_of names.now) without_ranks resident reason) }
{
    match reason {
        Why::Withdrawn => withdrawn_sentence(alloc, names, resident),
        Why::NotListed => format!(in alloc; "it is not on your list."),
        Why::NotRanked => format!(in alloc; "it did not rank you."),
        Why::Matched => format!(in alloc; "you are matched here."),
        Why::PrefersOwn {
            own: own_programme,
            own_rank,
            rank,
        } => {
            let own_name = names.programme(own_programme);
            let own_ordinal = Ordinal(own_rank);
            let ordinal = Ordinal(rank);
            format!(in alloc;
                "this was your {ordinal} choice, and you have your {own_ordinal}, {own_name}."
            )
        }
        Why::Full {
            rank,
            last_rank,
            quota,
        } => full_sentence(alloc, rank, last_rank, quota, without_ranks),
        Why::Blocking => format!(in alloc;
            "you would rather be here, and it would rather have you. This sheet is not right: please tell the office."
        ),
    }
}

/// Adds the line about one programme: the programme's name, and the sentence.
#[tactic(auto, unfolding(crate::specs::Lines::line))]
pub(crate) fn push_line(
    alloc: Global,
    answer_lines: &mut String,
    names: &Names,
    resident: ResidentNo,
    programme: ProgrammeNo,
    reason: Why,
    without_ranks: bool,
) -> Result<(), AllocError>
    ensures { OnOk result (string_bytes answer_lines.new ≡ string_bytes answer_lines.old
        ++ line (naming_of names.now) without_ranks resident programme reason) }
{
    let sentence_text = sentence(alloc, names, resident, reason, without_ranks)?;
    answer_lines.push_str(names.programme(programme))?;
    answer_lines.push_str(": ")?;
    answer_lines.push_str(sentence_text.as_str())?;
    answer_lines.push_str("\n")
}

// At which index of the list a programme stands, counted from 0.
fn choice_of(choices: &[ProgrammeNo], programme: ProgrammeNo) -> Option<usize>
    ensures { result ≡ position_from (λ p. p == programme) 0 choices.now }
{
    choices
        .iter()
        .position(|listed_programme| *listed_programme == programme)
}

// How the match ended for a resident who is matched with this programme. `choice` is the programme's index on the
// resident's list. If the programme withdrew or didn't rank the resident, the sheet is wrong, and the text says so.
#[tactic(auto, unfolding(crate::specs::Lines::matched, crate::specs::Lines::given, crate::specs::Lines::as_choice))]
fn matched_sentence(
    alloc: Global,
    programme_name: &str,
    choice: Option<usize>,
    reasons: &[Why],
) -> Result<String, AllocError>
    ensures { IfOk result (λ text.
        string_bytes text ≡ spec.matched programme_name.now choice reasons.now) }
{
    let Some(choice) = choice else {
        return format!(in alloc;
            "You are matched with {programme_name}, which is not on your list."
        );
    };
    match reasons.get(choice) {
        Some(Why::NotRanked) => format!(in alloc;
            "This sheet is not right: it gives you {programme_name}, which did not rank you. Please tell the office."
        ),
        Some(Why::Withdrawn) => format!(in alloc;
            "This sheet is not right: it gives you {programme_name}, which withdrew from the match. Please tell the office."
        ),
        _ => {
            let ordinal = Ordinal(choice);
            let programme_count = reasons.len();
            format!(in alloc;
                "You are matched with {programme_name}, your {ordinal} choice of {programme_count}."
            )
        }
    }
}

// How the match ended for a resident who did not withdraw: whether the resident is matched, and with which choice.
#[tactic(auto, unfolding(crate::specs::Lines::outcome))]
fn outcome_sentence(
    alloc: Global,
    names: &Names,
    own_programme: Option<ProgrammeNo>,
    choices: &[ProgrammeNo],
    reasons: &[Why],
) -> Result<String, AllocError>
    ensures { IfOk result (λ text. string_bytes text
        ≡ spec.outcome (naming_of names.now) own_programme choices.now reasons.now) }
{
    match own_programme {
        Some(own_programme) => matched_sentence(
            alloc,
            names.programme(own_programme),
            choice_of(choices, own_programme),
            reasons,
        ),
        None => format!(in alloc; "You are not matched."),
    }
}

// How the match ended for a resident, withdrawn or not.
#[tactic(auto, unfolding(crate::specs::Lines::ended))]
fn ended_sentence(
    alloc: Global,
    names: &Names,
    resident: ResidentNo,
    own_programme: Option<ProgrammeNo>,
    choices: &[ProgrammeNo],
    reasons: &[Why],
) -> Result<String, AllocError>
    ensures { IfOk result (λ text. string_bytes text
        ≡ spec.ended (naming_of names.now) resident own_programme choices.now reasons.now) }
{
    if names.resident_withdrew(resident) {
        format!(in alloc; "You withdrew from the match.")
    } else {
        outcome_sentence(alloc, names, own_programme, choices, reasons)
    }
}

// The word `programme` or `programmes`, for this number.
#[tactic(auto, unfolding(crate::specs::Lines::programmes_word))]
fn programmes_word(programme_count: usize) -> &'static str
    ensures { result.now ≡ spec.programmes_word programme_count }
{
    if programme_count == 1 {
        "programme"
    } else {
        "programmes"
    }
}

// How many programmes a resident ranked, how many of these ranked the resident, and how many withdrew.
#[tactic(auto, unfolding(crate::specs::Lines::ranked))]
fn ranked_sentence(
    alloc: Global,
    has_withdrawn: bool,
    tally: AnswerTally,
) -> Result<String, AllocError>
    ensures { IfOk result (λ text. string_bytes text ≡ spec.ranked has_withdrawn
        tally.listed_count tally.ranked_back_count tally.withdrawal_count) }
{
    let programme_count = tally.listed_count;
    if programme_count == 0 {
        return format!(in alloc; " You ranked no programme.\n");
    }
    let programme_word = programmes_word(programme_count);
    if has_withdrawn {
        return format!(in alloc; " You had ranked {programme_count} {programme_word}.\n");
    }
    let ranked_back_count = Count(tally.ranked_back_count);
    let withdrawal_count = Count(tally.withdrawal_count);
    format!(in alloc;
        " You ranked {programme_count} {programme_word}: {ranked_back_count} ranked you too, {withdrawal_count} withdrew.\n"
    )
}

/// Adds the first line. The line says how the match ended for the resident, how many programmes the resident ranked,
/// how many of these ranked the resident, and how many withdrew.
pub(crate) fn push_first_line(
    alloc: Global,
    answer_lines: &mut String,
    names: &Names,
    resident: ResidentNo,
    own_programme: Option<ProgrammeNo>,
    choices: &[ProgrammeNo],
    reasons: &[Why],
) -> Result<(), AllocError>
    ensures { OnOk result (string_bytes answer_lines.new ≡ string_bytes answer_lines.old
        ++ first_line (naming_of names.now) resident own_programme choices.now reasons.now) }
{
    let tally = count_answers(reasons);
    let ended_text = ended_sentence(alloc, names, resident, own_programme, choices, reasons)?;
    let ranked_text = ranked_sentence(alloc, names.resident_withdrew(resident), tally)?;
    answer_lines.push_str(ended_text.as_str())?;
    answer_lines.push_str(ranked_text.as_str())
}
