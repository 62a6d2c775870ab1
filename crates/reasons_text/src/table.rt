//! The rows of the table about all residents.
ghost use Rattle.std.specs.Prelude.{◌≡◌, ◌∷◌, [], OnOk, Some};
ghost use Rattle.records.specs.RowText.{Adds, row};
ghost use Rattle.reasons_text.specs.Lines as lines;
ghost use Rattle.reasons_text.specs.Naming.{naming_of};
ghost use Rattle.reasons_text.specs.Table as table;

use crate::names::Names;
use docket::{RowWriter, WriteFailed};
use match_model::{ProgrammeNo, ResidentNo};
use match_reasons::Why;
use std::io::Write;

/// Adds the row with the columns' names.
pub(crate) fn push_columns<W: Write>(rows: &mut RowWriter<'_, W>) -> Result<(), WriteFailed>
    ensures { OnOk result (Adds W.contents rows.old rows.new (row table.columns)) }
{
    rows.push(&[
        b"resident",
        b"programme",
        b"choice",
        b"answer",
        b"rank",
        b"last_rank",
        b"quota",
    ])
}

// The word that stands for an answer in the table.
#[tactic(auto, unfolding(crate::specs::Table::word))]
fn answer_word(reason: &Why) -> &'static str
    ensures { result.now ≡ table.word reason.now }
{
    match reason {
        Why::Withdrawn => "withdrawn",
        Why::NotListed => "unlisted",
        Why::NotRanked => "unranked",
        Why::Matched => "matched",
        Why::PrefersOwn { .. } => "better",
        Why::Full { .. } => "full",
        Why::Blocking => "blocking",
    }
}

// A rank as the table shows it, counted from 1 and written into `buffer`. The argument `rank` counts from 0.
fn rank_text(buffer: &mut itoa::Buffer, rank: usize) -> &str
    ensures { result.now ≡ table.rank_text (Some rank) }
{
    buffer.format((rank as u64).saturating_add(1))
}

// The resident's rank on the programme's list, written into `buffer`. The text is empty unless the answer is
// that all places were taken.
#[tactic(auto, unfolding(crate::specs::Table::rank_field))]
fn rank_field<'a>(buffer: &'a mut itoa::Buffer, reason: &Why, without_ranks: bool) -> &'a str
    ensures { result.now ≡ table.rank_field without_ranks reason.now }
{
    match *reason {
        Why::Full { rank, .. } if !without_ranks => rank_text(buffer, rank),
        _ => "",
    }
}

// The last rank that got a place, written into `buffer`. The text is empty unless the answer is that all
// places were taken.
#[tactic(auto, unfolding(crate::specs::Table::last_field))]
fn last_rank_field<'a>(buffer: &'a mut itoa::Buffer, reason: &Why, without_ranks: bool) -> &'a str
    ensures { result.now ≡ table.last_field without_ranks reason.now }
{
    match *reason {
        Why::Full {
            last_rank: Some(last_rank),
            ..
        } if !without_ranks => rank_text(buffer, last_rank),
        _ => "",
    }
}

// The programme's quota, written into `buffer`. The text is empty unless the answer is that all places were
// taken.
#[tactic(auto, unfolding(crate::specs::Table::quota_field))]
fn quota_field<'a>(buffer: &'a mut itoa::Buffer, reason: &Why) -> &'a str
    ensures { result.now ≡ table.quota_field reason.now }
{
    match *reason {
        Why::Full { quota, .. } => buffer.format(quota),
        _ => "",
    }
}

// Adds a row with these fields.
fn push_fields<'a, W: Write>(
    rows: &mut RowWriter<'_, W>,
    resident: &'a [u8],
    programme: &'a [u8],
    choice: &'a [u8],
    answer: &'a [u8],
    rank: &'a [u8],
    last_rank: &'a [u8],
    quota: &'a [u8],
) -> Result<(), WriteFailed>
    ensures { OnOk result (Adds W.contents rows.old rows.new (row (resident.now
        ∷ programme.now ∷ choice.now ∷ answer.now ∷ rank.now ∷ last_rank.now ∷ quota.now ∷ []))) }
{
    rows.push(&[resident, programme, choice, answer, rank, last_rank, quota])
}

/// Adds the row about one programme. `choice` is the programme's number on the resident's list, counted from 1.
#[tactic(auto, unfolding(crate::specs::Table::answer_row))]
pub(crate) fn push_row<W: Write>(
    rows: &mut RowWriter<'_, W>,
    names: &Names,
    resident: ResidentNo,
    choice: usize,
    programme: ProgrammeNo,
    reason: &Why,
    without_ranks: bool,
) -> Result<(), WriteFailed>
    ensures { OnOk result (Adds W.contents rows.old rows.new (table.answer_row
        (naming_of names.now) without_ranks resident choice programme reason.now)) }
{
    let (mut choice_buffer, mut rank_buffer) = (itoa::Buffer::new(), itoa::Buffer::new());
    let (mut last_rank_buffer, mut quota_buffer) = (itoa::Buffer::new(), itoa::Buffer::new());
    let resident = names.resident(resident).as_bytes();
    let programme = names.programme(programme).as_bytes();
    let choice = choice_buffer.format(choice).as_bytes();
    let answer = answer_word(reason).as_bytes();
    let rank = rank_field(&mut rank_buffer, reason, without_ranks).as_bytes();
    let last_rank = last_rank_field(&mut last_rank_buffer, reason, without_ranks).as_bytes();
    let quota = quota_field(&mut quota_buffer, reason).as_bytes();
    push_fields(
        rows, resident, programme, choice, answer, rank, last_rank, quota,
    )
}
