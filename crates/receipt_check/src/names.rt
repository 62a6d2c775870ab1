//! The names of a list, or of a programme's residents.
ghost use Rattle.std.specs.Prelude.{◌≡◌, ◌<◌, length, ◌∷◌, ◌++◌, [], ℕ, Some, None, true, false, is_some, IfOk, OnOk, MatchResult, option_map};
ghost use Rattle.docket_names.specs.Texts.{number_in};
ghost use Rattle.docket_names.specs.Words as words;
ghost use Rattle.receipt_check.specs.Faults as faults;
ghost use Rattle.receipt_check.specs.Shown.{fields_in};

use crate::rows::field;
use crate::wrong::Wrong;
use docket_names::{Texts, is_name};
use std::alloc::{AllocError, Global};
use std::hash::RandomState;

// Whether the name stands on the list; true without a list.
fn is_listed(list: Option<&Texts>, name: &[u8]) -> bool
    ensures { result ≡ faults.is_on (option_map (λ list. list.now) list.entry) name.now }
{
    match list {
        Some(list) => list.find(name).is_some(),
        None => true,
    }
}

// What is wrong with a name: it is no name, it isn't on the list, or it is among the names seen
// before.
fn name_defect(list: Option<&Texts>, seen_names: &Texts, name: &[u8]) -> Option<Wrong>
    ensures { result
        ≡ faults.name_wrong (option_map (λ list. list.now) list.entry) seen_names.now name.now }
{
    if !is_name(name) {
        return Some(Wrong::Name);
    }
    if !is_listed(list, name) {
        return Some(Wrong::NotListed);
    }
    if seen_names.find(name).is_some() {
        return Some(Wrong::Twice);
    }
    None
}

/// Adds a name that is not among the names seen before.
pub(crate) fn add(seen_names: &mut Texts, name: &[u8]) -> Result<(), AllocError>
    requires lawful { words.is_name name.now ≡ true }
    requires fresh { is_some (number_in seen_names.old name.now) ≡ false }
    ensures { OnOk result (seen_names.new ≡ seen_names.old ++ name.now ∷ []) }
{
    seen_names.number(name)?;
    Ok(())
}

/// The names, if all are right and different; or the place of the first wrong name, and what is
/// wrong with it.
pub(crate) fn names_in(
    alloc: Global,
    hash_keys: RandomState,
    list: Option<&Texts>,
    names: &[&[u8]],
) -> Result<Result<Texts, (usize, Wrong)>, AllocError>
    ensures { IfOk result (λ check_result. MatchResult check_result
        (λ seen_names. (seen_names ≡ fields_in names.now) × (faults.wrong_name
        (option_map (λ list. list.now) list.entry) (fields_in names.now) ≡ None))
        (λ name_fault. (name_fault.0 < length names.now) × (faults.wrong_name
        (option_map (λ list. list.now) list.entry) (fields_in names.now) ≡ Some name_fault))) }
{
    let mut seen_names = Texts::new(alloc, hash_keys);
    for k in 0..names.len() {
        let name = field(names, k);
        if let Some(defect) = name_defect(list, &seen_names, name) {
            return Ok(Err((k, defect)));
        }
        add(&mut seen_names, name)?;
    }
    Ok(Ok(seen_names))
}
