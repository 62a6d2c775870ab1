//! Which members are shown with a label: those whose name also means another member.
ghost use Rattle.std.specs.Prelude.{◌≡◌, ◌≤◌, [], IfOk, OnOk, bytes_eq, length, map, string_bytes, unwrap_or};
ghost use Rattle.reasons_text.specs.Keys.{AreLabels};
ghost use Rattle.reasons_text.specs.Naming.{is_by_key, is_meant, is_own, member_count as members_of, side_of, text_at};
ghost use Rattle.reasons_text.specs.Numbers as spec;
ghost use Rattle.reasons_text.specs.Numbers.{AreFull, AreOwners, Notes, owner_in};

use crate::key::{SideKey, label_text, text_in};
use crate::names::Meant;
use crate::side::{Side, docket_name, member_count};
use docket::Docket;
use std::alloc::{AllocError, Global};
use std::collections::HashMap;
use std::hash::RandomState;

// For each text, whom it means: nobody, one member or several. A row of the key whose member the docket lacks counts
// as a member.
type Owners<'a> = HashMap<&'a str, Meant, RandomState>;

// Whom a text means after it was noted for one more member.
fn owner_with(owner: Meant, number: usize) -> Meant
    ensures { result ≡ spec.owner_with owner number }
{
    match owner {
        Meant::Nobody => Meant::One(number),
        Meant::One(member) if member == number => Meant::One(member),
        Meant::One(_) | Meant::Several => Meant::Several,
    }
}

// Whom this text means: the entry of the map, or nobody.
fn owner(owners: &Owners, text: &str) -> Meant
    ensures { result ≡ owner_in owners.now text.now }
{
    match owners.get(text) {
        Some(owner) => *owner,
        None => Meant::Nobody,
    }
}

// Notes that a text means this member.
fn note<'a>(owners: &mut Owners<'a>, text: &'a str, number: usize) -> Result<(), AllocError>
    ensures { OnOk result (Notes owners.old owners.new (bytes_eq text.entry.now) number) }
{
    let known_owner = owner(owners, text);
    owners.insert(text, owner_with(known_owner, number))?;
    Ok(())
}

// Notes the docket's name of the member with this number, if the docket has such a member.
fn note_docket_name<'a>(
    owners: &mut Owners<'a>,
    docket: &'a Docket,
    side: Side,
    number: usize,
) -> Result<(), AllocError>
    ensures { OnOk result
        (Notes owners.old owners.new (is_own docket.entry.now side number) number) }
{
    if number < member_count(docket, side) as usize {
        note(owners, docket_name(docket, side, number as u32), number)
    } else {
        Ok(())
    }
}

// The sign of a member, or an empty text if the key gives the member none.
fn sign_of(side_key: &SideKey, number: usize) -> &str
    ensures { result.now ≡ unwrap_or (text_at (side_of side_key.now).signs number) [] }
{
    text_in(side_key.signs.as_slice(), number).unwrap_or("")
}

// Notes the name, the sign and the label that the key gives a member, if the key has a row of the
// member.
fn note_row<'a>(
    owners: &mut Owners<'a>,
    side_key: &'a SideKey,
    label: &'a str,
    number: usize,
) -> Result<(), AllocError>
    requires { label.now ≡ spec.full_label (side_of side_key.now) number }
    ensures { OnOk result (Notes owners.old owners.new
        (is_by_key (text_at (side_of side_key.entry.now).names number)
        (text_at (side_of side_key.entry.now).signs number)) number) }
{
    let Some(name) = text_in(side_key.names.as_slice(), number) else {
        return Ok(());
    };
    note(owners, name, number)?;
    note(owners, sign_of(side_key, number), number)?;
    note(owners, label, number)
}

// Notes each text that means a member, for all members.
fn note_member_texts<'a>(
    owners: &mut Owners<'a>,
    docket: &'a Docket,
    side: Side,
    side_key: &'a SideKey,
    label: &'a str,
    number: usize,
) -> Result<(), AllocError>
    requires { label.now ≡ spec.full_label (side_of side_key.now) number }
    ensures { OnOk result (Notes owners.old owners.new
        (λ text. is_meant docket.entry.now side (side_of side_key.entry.now) text number) number) }
{
    note_docket_name(owners, docket, side, number)?;
    note_row(owners, side_key, label, number)
}

// The number of members on a side that may have names: those of the docket, and those whom only the key has.
fn named_count(docket: &Docket, side: Side, names: &[String]) -> usize
    ensures members { members_of docket.now side ≤ result }
    ensures rows { length names.now ≤ result }
{
    let docket_member_count = member_count(docket, side) as usize;
    docket_member_count.max(names.len())
}

// The label of a member, or an empty text if the key gives the member no name.
fn full_label(alloc: Global, side_key: &SideKey, number: usize) -> Result<String, AllocError>
    ensures { IfOk result (λ label.
        string_bytes label ≡ spec.full_label (side_of side_key.now) number) }
{
    let Some(name) = text_in(side_key.names.as_slice(), number) else {
        return Ok(String::new(alloc));
    };
    label_text(alloc, name, sign_of(side_key, number))
}

// The labels of all who may have names.
fn full_labels(
    alloc: Global,
    docket: &Docket,
    side: Side,
    side_key: &SideKey,
) -> Result<Vec<String>, AllocError>
    ensures { IfOk result (λ labels.
        AreFull docket.now side (side_of side_key.now) (map string_bytes labels.items)) }
{
    let mut labels = Vec::new(alloc);
    for number in 0..named_count(docket, side, side_key.names.as_slice()) {
        let label = full_label(alloc, side_key, number)?;
        labels.push(label)?;
    }
    Ok(labels)
}

// The map that says for each text whom of a side it means.
fn owners<'a>(
    alloc: Global,
    hash_keys: RandomState,
    docket: &'a Docket,
    side: Side,
    side_key: &'a SideKey,
    labels: &'a [String],
) -> Result<Owners<'a>, AllocError>
    requires { AreFull docket.now side (side_of side_key.now) (map string_bytes labels.now) }
    ensures { IfOk result (AreOwners docket.entry.now side (side_of side_key.entry.now)) }
{
    let mut owners = HashMap::with_hasher(alloc, hash_keys);
    for number in 0..labels.len() {
        note_member_texts(
            &mut owners,
            docket,
            side,
            side_key,
            labels[number].as_str(),
            number,
        )?;
    }
    Ok(owners)
}

// The label of a member if its name also means another member, else an empty text.
fn label_if_shared(
    alloc: Global,
    owners: &Owners,
    side_key: &SideKey,
    number: u32,
) -> Result<String, AllocError>
    ensures { IfOk result (λ label.
        string_bytes label ≡ spec.label_by owners.now (side_of side_key.now) number) }
{
    let index = number as usize;
    let Some(name) = text_in(side_key.names.as_slice(), index) else {
        return Ok(String::new(alloc));
    };
    match owner(owners, name) {
        Meant::Several => full_label(alloc, side_key, index),
        Meant::One(_) | Meant::Nobody => Ok(String::new(alloc)),
    }
}

/// The labels of the members of a side. A label is empty if the member's name means no other member.
pub(crate) fn labels(
    alloc: Global,
    hash_keys: RandomState,
    docket: &Docket,
    side: Side,
    side_key: &SideKey,
) -> Result<Vec<String>, AllocError>
    ensures { IfOk result (λ labels.
        AreLabels docket.now side (side_of side_key.now) (map string_bytes labels.items)) }
{
    let possible_labels = full_labels(alloc, docket, side, side_key)?;
    let owners = owners(
        alloc,
        hash_keys,
        docket,
        side,
        side_key,
        possible_labels.as_slice(),
    )?;
    let mut labels = Vec::new(alloc);
    for number in 0..member_count(docket, side) {
        let label = label_if_shared(alloc, &owners, side_key, number)?;
        labels.push(label)?;
    }
    Ok(labels)
}
