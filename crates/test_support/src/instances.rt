//! Instances that several tests share.
use match_model::{Assignment, Instance, InstanceBuilder, ModelFault, ProgrammeNo, ResidentNo};
use std::alloc::Global;

/// The quotas and lists of the programmes, and then the lists of the residents, with members as numbers.
pub type Members<'a> = (&'a [(u32, &'a [u32])], &'a [&'a [u32]]);

/// Two programmes and two residents. The residents rank the programmes in the opposite order to the programmes' own
/// rankings.
pub const TWO_BY_TWO: Members = (&[(1, &[0, 1]), (1, &[1, 0])], &[&[1, 0], &[0, 1]]);

/// A programme with two places that all residents rank, and a second programme that takes a resident away from it.
pub const TWO_PLACES: Members = (&[(2, &[0, 1, 2]), (1, &[0])], &[&[1, 0], &[0], &[0]]);

fn residents(alloc: Global, numbers: &[u32]) -> Result<Vec<ResidentNo>, ModelFault> {
    let mut residents = Vec::new(alloc);
    for number in numbers {
        let Ok(()) = residents.push(ResidentNo(*number)) else {
            return Err(ModelFault::Memory);
        };
    }
    Ok(residents)
}

fn programmes(alloc: Global, numbers: &[u32]) -> Result<Vec<ProgrammeNo>, ModelFault> {
    let mut programmes = Vec::new(alloc);
    for number in numbers {
        let Ok(()) = programmes.push(ProgrammeNo(*number)) else {
            return Err(ModelFault::Memory);
        };
    }
    Ok(programmes)
}

fn add_members(
    alloc: Global,
    builder: &mut InstanceBuilder,
    members: Members,
) -> Result<(), ModelFault> {
    for _ in members.1 {
        builder.add_resident()?;
    }
    for (quota, resident_numbers) in members.0 {
        let programme = builder.add_programme(*quota)?;
        let ranked_residents = residents(alloc, resident_numbers)?;
        builder.programme_list(programme, ranked_residents.as_slice())?;
    }
    for (resident, programme_numbers) in (0..20_000).zip(members.1) {
        let ranked_programmes = programmes(alloc, programme_numbers)?;
        builder.resident_list(ResidentNo(resident), ranked_programmes.as_slice())?;
    }
    Ok(())
}

/// The instance of these members.
pub fn instance_of(alloc: Global, members: Members) -> Result<Instance, ModelFault> {
    let mut builder = InstanceBuilder::new(alloc);
    add_members(alloc, &mut builder, members)?;
    builder.finish().map_err(|refused| refused.fault)
}

/// Whether a sheet matches each resident with the programme that has this number, or with none.
pub fn has_places(sheet: &Assignment, programme_numbers: &[Option<u32>]) -> bool {
    for (resident, programme_number) in (0..sheet.len()).zip(programme_numbers) {
        if resident < sheet.len()
            && sheet.get(ResidentNo(resident))
                != programme_number.map(|number| ProgrammeNo(number))
        {
            return false;
        }
    }
    sheet.len() as usize == programme_numbers.len()
}
