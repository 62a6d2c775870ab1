//! The message for a name that means nobody, or means several members.
ghost use Rattle.std.specs.Prelude.{IfOk};
ghost use Rattle.reasons_text.specs.Faults.{IsSharedName, IsUnknownName};

use crate::fault::WhyFault;
use crate::names::Names;
use crate::shown::push_shown;
use crate::side::{Side, member_count};
use std::alloc::{AllocError, Global};
use strsim::levenshtein;

// The greatest number of similar names in a message.
const MOST_SIMILAR_NAMES: usize = 3;

// The greatest number of members that a message lists, if a name means several members.
const MOST_MEMBERS_LISTED: usize = 10;

// The greatest length in bytes of a name for which similar names are searched.
const LONGEST_ASKED_NAME: usize = 64;

// How many edits may separate a similar name from the name asked for: a third of the letters of the name asked for,
// but at least two, and fewer than all its letters.
fn most_edits(letter_count: usize) -> usize {
    (letter_count / 3)
        .max(2)
        .min(letter_count.saturating_sub(1))
}

// How many edits separate a name from the name asked for, or none if the names are not similar.
fn edits_between(alloc: Global, asked_name: &str, name: &str) -> Result<Option<usize>, AllocError> {
    if asked_name.len() > LONGEST_ASKED_NAME {
        return Ok(None);
    }
    let letter_count = asked_name.chars().count();
    let most_edits = most_edits(letter_count);
    if name.chars().count().abs_diff(letter_count) > most_edits {
        return Ok(None);
    }
    let edit_count = levenshtein(alloc, asked_name, name)?;
    Ok(if edit_count <= most_edits {
        Some(edit_count)
    } else {
        None
    })
}

// How many edits separate a member's real name or shown name from the name asked for, whichever is nearer. None
// if neither is similar.
fn edits_of(
    alloc: Global,
    names: &Names,
    side: Side,
    asked_name: &str,
    number: u32,
) -> Result<Option<usize>, AllocError> {
    let shown_name = names.shown_name(side, number);
    let real_name = names.real_name(side, number);
    let shown_edits = edits_between(alloc, asked_name, shown_name)?;
    if real_name == shown_name {
        return Ok(shown_edits);
    }
    let real_edits = edits_between(alloc, asked_name, real_name)?;
    Ok(match (shown_edits, real_edits) {
        (Some(shown_edits), Some(real_edits)) => Some(shown_edits.min(real_edits)),
        (shown_edits, None) => shown_edits,
        (None, real_edits) => real_edits,
    })
}

// Adds a similar name to the question `did you mean ..?`.
fn push_similar_name(question: &mut String, name: &str) -> Result<(), AllocError> {
    if question.is_empty() {
        question.push_str("; did you mean ")?;
    } else {
        question.push_str(" or ")?;
    }
    question.push_str(name)
}

// Ends the question `did you mean ..?`, if the text has begun it.
fn end_similar_names(question: &mut String) -> Result<(), AllocError> {
    if question.is_empty() {
        return Ok(());
    }
    question.push_str("?")
}

// The name asked for, in the form in which it is shown.
fn shown_text(alloc: Global, asked_name: &str) -> Result<String, AllocError> {
    let mut shown = String::new(alloc);
    push_shown(&mut shown, asked_name)?;
    Ok(shown)
}

// The question that lists similar names, or an empty text if no name is similar.
fn similar_names_question(
    alloc: Global,
    names: &Names,
    side: Side,
    asked_name: &str,
) -> Result<String, AllocError> {
    let mut similar_members = Vec::new(alloc);
    for number in 0..member_count(names.docket, side) {
        if let Some(edits) = edits_of(alloc, names, side, asked_name, number)? {
            similar_members.push((edits, number))?;
        }
    }
    similar_members.sort_by_key(|(edits, _)| *edits)?;
    let mut similar_names = String::new(alloc);
    for (_, number) in similar_members.iter().take(MOST_SIMILAR_NAMES) {
        push_similar_name(&mut similar_names, names.shown_name(side, *number))?;
    }
    end_similar_names(&mut similar_names)?;
    Ok(similar_names)
}

/// The fault that no member of this side has this name, with up to three similar names.
pub(crate) fn unknown_name(
    alloc: Global,
    names: &Names,
    side: Side,
    asked_name: &str,
) -> Result<WhyFault, AllocError>
    ensures { IfOk result (IsUnknownName side) }
{
    let similar_names = similar_names_question(alloc, names, side, asked_name)?;
    let asked_name = shown_text(alloc, asked_name)?;
    Ok(match side {
        Side::Programmes => {
            WhyFault::NoProgramme(format!(in alloc;
                "no programme is named {asked_name}{similar_names}"
            )?)
        }
        Side::Residents => {
            WhyFault::NoResident(format!(in alloc;
                "no resident is named {asked_name}{similar_names}"
            )?)
        }
    })
}

// The labels of up to ten members whom a name means, and how many more it means.
fn labels_of(
    alloc: Global,
    names: &Names,
    side: Side,
    asked_name: &str,
) -> Result<String, AllocError> {
    let mut labels = String::new(alloc);
    let mut meant_count = 0usize;
    for number in 0..names.named_count(side) {
        if !names.means(alloc, side, asked_name, number)? {
            continue;
        }
        if meant_count < MOST_MEMBERS_LISTED {
            labels.push_str(if meant_count == 0 { "" } else { ", " })?;
            labels.push_str(names.label(alloc, side, number)?.as_str())?;
        }
        meant_count = meant_count.saturating_add(1);
    }
    if meant_count > MOST_MEMBERS_LISTED {
        let more_members = meant_count - MOST_MEMBERS_LISTED;
        labels.push_str(format!(in alloc; " and {more_members} more")?.as_str())?;
    }
    Ok(labels)
}

/// The fault that more than one member of this side has this name, with the labels of up to ten of them.
pub(crate) fn shared_name(
    alloc: Global,
    names: &Names,
    side: Side,
    asked_name: &str,
) -> Result<WhyFault, AllocError>
    ensures { IfOk result (IsSharedName side) }
{
    let labels = labels_of(alloc, names, side, asked_name)?;
    let asked_name = shown_text(alloc, asked_name)?;
    Ok(match side {
        Side::Programmes => WhyFault::ManyProgrammes(format!(in alloc;
            "more than one programme is named {asked_name}: {labels}"
        )?),
        Side::Residents => WhyFault::ManyResidents(format!(in alloc;
            "more than one resident is named {asked_name}: {labels}"
        )?),
    })
}
