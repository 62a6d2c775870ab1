//! How the code finds why a placement does not give a programme to a resident.
ghost use Rattle.std.specs.Prelude.{◌≡◌, ◌≢◌, length, MatchOption, IfSome};
ghost use Rattle.match_model.specs.Instance.{IsProgramme, IsResident, list_at};
ghost use Rattle.settle_law.specs.Stable.{IsStable};
ghost use Rattle.match_reasons.specs.Reason.{Asks, GivesProgrammes, IsFirst, IsTaken, NamesOwn, NamesProgramme, TellsFull, Wants};

use crate::listed::Listed;
use crate::reason::Why;
use crate::taken::{Taken, is_member};
use match_model::{Assignment, ProgrammeNo, ResidentNo};

/// Why a placement does not match this resident with this programme, or that it does: the first of the possible
/// answers that is true, by the two members' lists as they were written.
///
/// The resident and the programme are members of the instance, and the placement has an entry for each resident.
/// `taken` is what `places_taken` returned for the same programme, placement and lists. The instance was made from
/// the lists, since `Listed` accepts no other lists. If the placement is stable, the answer is never `Blocking`.
pub fn why(
    listed: &Listed,
    sheet: &Assignment,
    taken: &Taken,
    resident: ResidentNo,
    programme: ProgrammeNo,
) -> Why
    requires resident { IsResident listed.now.instance resident }
    requires programme { IsProgramme listed.now.instance programme }
    requires one_place_each { length sheet.now ≡ length listed.now.instance.resident_lists }
    requires taken { IsTaken (list_at listed.now.written.programme_lists programme) sheet.now
        programme taken.now }
    ensures first { IsFirst listed.now.instance (list_at listed.now.written.resident_lists resident)
        (list_at listed.now.written.programme_lists programme) sheet.now resident programme result }
    ensures only { (answer : Why)
        → IsFirst listed.now.instance (list_at listed.now.written.resident_lists resident)
        (list_at listed.now.written.programme_lists programme) sheet.now resident programme answer
        → answer ≡ result }
    ensures members { GivesProgrammes listed.now.instance sheet.now
        → NamesProgramme listed.now.instance result }
    ensures never_blocking { IsStable listed.now.instance sheet.now → result ≢ Why.Blocking }
    ensures full { IsStable listed.now.instance sheet.now
        → Wants listed.now.instance sheet.now resident programme → TellsFull result }
{
    // For the proof alone: the instance was made from the lists.
    let _inst = listed.instance();
    first_reason(listed, sheet, taken, resident, programme)
}

// The first of the possible answers that is true.
fn first_reason(
    listed: &Listed,
    sheet: &Assignment,
    taken: &Taken,
    resident: ResidentNo,
    programme: ProgrammeNo,
) -> Why
    requires resident { IsResident listed.now.instance resident }
    requires programme { IsProgramme listed.now.instance programme }
    requires one_place_each { length sheet.now ≡ length listed.now.instance.resident_lists }
    requires taken { IsTaken (list_at listed.now.written.programme_lists programme) sheet.now
        programme taken.now }
    ensures first { IsFirst listed.now.instance (list_at listed.now.written.resident_lists resident)
        (list_at listed.now.written.programme_lists programme) sheet.now resident programme result }
    ensures own { NamesOwn sheet.now resident result }
{
    let inst = listed.instance();
    let written_lists = listed.lists();
    let resident_reason = residents_reason(listed, sheet, resident, programme);
    if let Some(reason) = resident_reason {
        return reason;
    }
    let Some(rank) = written_lists.rank_of_resident(programme, resident) else {
        return Why::NotRanked;
    };
    let quota = inst.quota(programme);
    if taken.has_room(quota, rank) {
        return Why::Blocking;
    }
    Why::Full {
        rank,
        last_rank: taken.last,
        quota,
    }
}

/// The first true answer among those that need no look at how the programme's places are taken: a withdrawal, a list
/// without the other member, a match with this programme, or a programme that the resident ranks before it. None if
/// none of these is true.
fn residents_reason(
    listed: &Listed,
    sheet: &Assignment,
    resident: ResidentNo,
    programme: ProgrammeNo,
) -> Option<Why>
    requires resident { IsResident listed.now.instance resident }
    requires programme { IsProgramme listed.now.instance programme }
    requires one_place_each { length sheet.now ≡ length listed.now.instance.resident_lists }
    ensures first { MatchOption result
        (Asks listed.now.instance (list_at listed.now.written.resident_lists resident)
        (list_at listed.now.written.programme_lists programme) sheet.now resident programme)
        (λ answer. IsFirst listed.now.instance (list_at listed.now.written.resident_lists resident)
        (list_at listed.now.written.programme_lists programme) sheet.now resident programme
        answer) }
    ensures own { IfSome result (NamesOwn sheet.now resident) }
{
    let inst = listed.instance();
    let written_lists = listed.lists();
    if inst.resident_withdrawn(resident) || inst.programme_withdrawn(programme) {
        return Some(Why::Withdrawn);
    }
    let Some(rank) = written_lists.rank_of_programme(resident, programme) else {
        return Some(Why::NotListed);
    };
    // Neither member is withdrawn, and the resident listed the programme. So if there is no rank, the programme
    // didn't list the resident.
    let Some(_) = inst.rank_at_resident(resident, programme) else {
        return Some(Why::NotRanked);
    };
    if is_member(sheet, resident, programme) {
        return Some(Why::Matched);
    }
    let Some(own_programme) = sheet.get(resident) else {
        return None;
    };
    let Some(own_rank) = written_lists.rank_of_programme(resident, own_programme) else {
        return None;
    };
    if own_rank < rank {
        Some(Why::PrefersOwn {
            own: own_programme,
            own_rank,
            rank,
        })
    } else {
        None
    }
}
