//! Large instances, instances of pairs, and chains.
use match_model::{Instance, InstanceBuilder, ModelFault, ProgrammeNo, ResidentNo};
use std::alloc::Global;

/// All residents with numbers below 20,000.
pub fn all_residents(alloc: Global) -> Result<Vec<ResidentNo>, ModelFault> {
    let mut residents = Vec::new(alloc);
    for number in 0..20_000 {
        let Ok(()) = residents.push(ResidentNo(number)) else {
            return Err(ModelFault::Memory);
        };
    }
    Ok(residents)
}

/// All programmes with numbers below ten.
pub const TEN_PROGRAMMES: [ProgrammeNo; 10] = [
    ProgrammeNo(0),
    ProgrammeNo(1),
    ProgrammeNo(2),
    ProgrammeNo(3),
    ProgrammeNo(4),
    ProgrammeNo(5),
    ProgrammeNo(6),
    ProgrammeNo(7),
    ProgrammeNo(8),
    ProgrammeNo(9),
];

fn add_in_one_order(
    builder: &mut InstanceBuilder,
    residents: &[ResidentNo],
) -> Result<(), ModelFault> {
    for _ in residents {
        builder.add_resident()?;
    }
    for _ in 0..10 {
        let programme = builder.add_programme(2_000)?;
        builder.programme_list(programme, residents)?;
    }
    for resident in residents {
        builder.resident_list(*resident, &TEN_PROGRAMMES)?;
    }
    Ok(())
}

/// Ten programmes with 2,000 places each, and 20,000 residents. Each member ranks the other side in the order of
/// numbers.
pub fn made_in_one_order(alloc: Global) -> Result<Instance, ModelFault> {
    let mut builder = InstanceBuilder::new(alloc);
    let residents = all_residents(alloc)?;
    add_in_one_order(&mut builder, residents.as_slice())?;
    builder.finish().map_err(|refused| refused.fault)
}

// Adds these numbers of residents and of programmes. Each programme has one place.
fn add_one_place_members(
    builder: &mut InstanceBuilder,
    resident_count: u32,
    programme_count: u32,
) -> Result<(), ModelFault> {
    for _ in 0..resident_count {
        builder.add_resident()?;
    }
    for _ in 0..programme_count {
        builder.add_programme(1)?;
    }
    Ok(())
}

/// Pairs of a programme with one place and a resident, who rank only each other.
pub fn made_pairs(alloc: Global, pair_count: u32) -> Result<Instance, ModelFault> {
    let mut builder = InstanceBuilder::new(alloc);
    add_one_place_members(&mut builder, pair_count, pair_count)?;
    for pair in 0..pair_count {
        builder.programme_list(ProgrammeNo(pair), &[ResidentNo(pair)])?;
        builder.resident_list(ResidentNo(pair), &[ProgrammeNo(pair)])?;
    }
    builder.finish().map_err(|refused| refused.fault)
}

/// A chain: the last programme displaces the first resident, whose programme then offers to the second resident and
/// displaces that one from its programme, and so on.
pub fn made_chain(alloc: Global, link_count: u32) -> Result<Instance, ModelFault> {
    let mut builder = InstanceBuilder::new(alloc);
    add_one_place_members(&mut builder, link_count, link_count.saturating_add(1))?;
    for link in 0..link_count {
        let next_link = link.saturating_add(1);
        let residents = [ResidentNo(link), ResidentNo(next_link)];
        let ranked_residents = if next_link < link_count {
            &residents[..]
        } else {
            &residents[..1]
        };
        builder.programme_list(ProgrammeNo(link), ranked_residents)?;
        let better_programme = ProgrammeNo(if link == 0 {
            link_count
        } else {
            link.saturating_sub(1)
        });
        builder.resident_list(ResidentNo(link), &[better_programme, ProgrammeNo(link)])?;
    }
    builder.programme_list(ProgrammeNo(link_count), &[ResidentNo(0)])?;
    builder.finish().map_err(|refused| refused.fault)
}
