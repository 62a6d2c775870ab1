//! The three lists of findings in a report.
ghost use Rattle.std.specs.Prelude.{◌≡◌, ◌↔◌, ◌++◌, ◌<◌, ℕ, List, Option, map, length, IfOk, OnOk, IsTrue};
ghost use Rattle.match_model.specs.Ranking.{HasNoRepeats};
ghost use Rattle.match_model.specs.Instance.{IsInstance, IsProgramme, IsResident, Acceptable, list_of_resident as ranking_of_resident};
ghost use Rattle.settle_law.specs.Stable.{Blocks, HasRoomFor};
ghost use Rattle.match_audit.specs.Listing.{Lists, ListsNumbers, IsPreferredFront};
ghost use Rattle.match_audit.specs.Report.{IsUnacceptable, IsOver};
ghost use Rattle.match_audit.specs.Loads.{AreLoads};

use crate::load::{Load, rank_or_length};
use match_model::{Assignment, Instance, ProgrammeNo, ResidentNo};
use std::alloc::{AllocError, Global};

/// The unacceptable pairs of a placement, ordered by the resident's number.
pub(crate) fn unacceptable_pairs(
    alloc: Global,
    inst: &Instance,
    assignment: &Assignment,
) -> Result<Vec<(ResidentNo, ProgrammeNo)>, AllocError>
    requires { length assignment.now ≡ length inst.now.resident_lists }
    ensures { IfOk result (λ pairs. Lists (IsUnacceptable inst.now assignment.now) pairs.items) }
{
    let mut pairs = Vec::new(alloc);
    for r in 0..assignment.len() {
        let resident = ResidentNo(r);
        let Some(programme) = assignment.get(resident) else {
            continue;
        };
        if !is_acceptable(inst, resident, programme) {
            pairs.push((resident, programme))?;
        }
    }
    Ok(pairs)
}

/// Whether a resident and a programme rank each other. The call looks into the resident's table of ranks, since that
/// table is mostly shorter than the programme's.
fn is_acceptable(inst: &Instance, resident: ResidentNo, programme: ProgrammeNo) -> bool
    requires { IsResident inst.now resident }
    ensures { IsTrue result ↔ Acceptable inst.now resident programme }
{
    // For the proof alone: by its clause, if a resident ranks a programme, the programme ranks the
    // resident.
    let _residents = inst.residents();
    inst.rank_at_resident(resident, programme).is_some()
}

/// The programmes with more members than their quota, each with its number of members, ordered by the programme's
/// number.
pub(crate) fn over_quota(
    alloc: Global,
    inst: &Instance,
    loads: &[Load],
) -> Result<Vec<(ProgrammeNo, u32)>, AllocError>
    requires { length loads.now ≡ length inst.now.quotas }
    ensures { IfOk result (λ programmes_over. (placement : List (Option ℕ))
        → AreLoads inst.now placement loads.now
        → Lists (IsOver inst.now placement) programmes_over.items) }
{
    let mut programmes_over = Vec::new(alloc);
    for p in 0..inst.programmes() {
        let programme = ProgrammeNo(p);
        let members = loads[p as usize].members;
        if members > inst.quota(programme) {
            programmes_over.push((programme, members))?;
        }
    }
    Ok(programmes_over)
}

/// The blocking pairs, ordered by the resident's number and then by the programme's number.
pub(crate) fn blocking_pairs(
    alloc: Global,
    inst: &Instance,
    assignment: &Assignment,
    loads: &[Load],
) -> Result<Vec<(ResidentNo, ProgrammeNo)>, AllocError>
    requires size { length assignment.now ≡ length inst.now.resident_lists }
    requires loads { AreLoads inst.now assignment.now loads.now }
    ensures { IfOk result (λ pairs. Lists (Blocks inst.now assignment.now) pairs.items) }
{
    let mut pairs = Vec::new(alloc);
    for r in 0..inst.residents() {
        let resident = ResidentNo(r);
        let programmes = blocking_programmes(alloc, inst, assignment, loads, resident)?;
        append_pairs(&mut pairs, resident, &programmes)?;
    }
    Ok(pairs)
}

/// Appends a pair of this resident with each of these programmes.
fn append_pairs(
    pairs: &mut Vec<(ResidentNo, ProgrammeNo)>,
    resident: ResidentNo,
    programmes: &[ProgrammeNo],
) -> Result<(), AllocError>
    ensures { OnOk result
        (pairs.new.items ≡ pairs.old.items ++ map (λ p. (resident, p)) programmes.now) }
{
    for programme in programmes {
        pairs.push((resident, *programme))?;
    }
    Ok(())
}

/// The programmes that form a blocking pair with this resident, in the order of their numbers.
fn blocking_programmes(
    alloc: Global,
    inst: &Instance,
    assignment: &Assignment,
    loads: &[Load],
    resident: ResidentNo,
) -> Result<Vec<ProgrammeNo>, AllocError>
    requires instance { IsInstance inst.now }
    requires member { IsResident inst.now resident }
    requires size { length assignment.now ≡ length inst.now.resident_lists }
    requires loads { AreLoads inst.now assignment.now loads.now }
    ensures { IfOk result (λ programmes.
        ListsNumbers (Blocks inst.now assignment.now resident) programmes.items) }
{
    let mut programmes = Vec::new(alloc);
    for programme in preferred(inst, resident, assignment.get(resident)) {
        if has_room_for(inst, loads, *programme, resident) {
            programmes.push(*programme)?;
        }
    }
    programmes.sort_unstable();
    Ok(programmes)
}

/// The programmes that a resident prefers to the programme held: the resident's list up to that programme. This
/// is the whole list if that programme isn't on it or if no programme is held.
fn preferred(
    inst: &Instance,
    resident: ResidentNo,
    held_programme: Option<ProgrammeNo>,
) -> &[ProgrammeNo]
    requires instance { IsInstance inst.now }
    requires member { IsResident inst.now resident }
    ensures once { HasNoRepeats result.now }
    ensures front { IsPreferredFront
        (ranking_of_resident inst.now resident) held_programme result.now }
{
    let list = inst.list_of_resident(resident);
    let Some(held_programme) = held_programme else {
        return list;
    };
    match inst.rank_at_resident(resident, held_programme) {
        Some(rank) => &list[..rank as usize],
        None => list,
    }
}

/// Whether a programme has a free place, or a member who stands behind this resident on its list.
fn has_room_for(
    inst: &Instance,
    loads: &[Load],
    programme: ProgrammeNo,
    resident: ResidentNo,
) -> bool
    requires member { IsProgramme inst.now programme }
    requires loads { length loads.now ≡ length inst.now.quotas }
    ensures { (placement : List (Option ℕ)) → AreLoads inst.now placement loads.now
        → IsTrue result ↔ HasRoomFor inst.now placement programme resident }
{
    let load = loads[programme.0 as usize];
    if load.has_fewer_than(inst.quota(programme)) {
        return true;
    }
    load.has_member_after(rank_or_length(inst, programme, resident))
}
