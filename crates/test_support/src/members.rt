//! Tests on the members of an instance.
use match_model::{Instance, ProgrammeNo, ResidentNo};

/// Whether a programme has this quota and this list.
pub fn has_quota_and_list(
    instance: &Instance,
    programme: ProgrammeNo,
    quota: u32,
    list: &[ResidentNo],
) -> bool {
    programme.0 < instance.programmes()
        && instance.quota(programme) == quota
        && instance.list_of_programme(programme) == list
}

/// Whether a resident has this list.
pub fn has_list(instance: &Instance, resident: ResidentNo, list: &[ProgrammeNo]) -> bool {
    resident.0 < instance.residents() && instance.list_of_resident(resident) == list
}
