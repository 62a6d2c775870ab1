//! Dockets whose rows are computed.
use std::alloc::{AllocError, Global};

/// Adds `prefix`, a number and `suffix`.
pub(super) fn push_numbered(
    rows: &mut String,
    alloc: Global,
    prefix: &str,
    number: u32,
    suffix: &str,
) -> Result<(), AllocError> {
    rows.push_str(prefix)?;
    rows.push_str(number.to_string(alloc)?.as_str())?;
    rows.push_str(suffix)
}

/// Adds `prefix`, a number and `suffix` for each number below `bound`.
pub(super) fn push_all_numbered(
    rows: &mut String,
    alloc: Global,
    prefix: &str,
    bound: u32,
    suffix: &str,
) -> Result<(), AllocError> {
    for number in 0..bound {
        push_numbered(rows, alloc, prefix, number, suffix)?;
    }
    Ok(())
}

/// Adds the lists of ten programmes, each with all 20,000 residents.
pub(super) fn push_lists(rows: &mut String, alloc: Global) -> Result<(), AllocError> {
    for programme in 0..10u32 {
        push_numbered(rows, alloc, "P,p", programme, "")?;
        push_all_numbered(rows, alloc, ",r", 20_000, "")?;
        rows.push_str("\n")?;
    }
    Ok(())
}

// A way round a circle: the length of a step, the number of steps, and how many positions the circle has.
type CircleWalk = (u32, u32, u32);

// Adds `prefix` and a number for each position that the steps reach. The steps begin at `first_position`, and
// `base_number` is added to each number.
fn push_walk(
    rows: &mut String,
    alloc: Global,
    prefix: &str,
    first_position: u32,
    walk: CircleWalk,
    base_number: u32,
) -> Result<(), AllocError> {
    let (step, step_count, circle_size) = walk;
    let mut position = first_position;
    for _ in 0..step_count {
        position = position.saturating_add(step) % circle_size.max(1);
        push_numbered(
            rows,
            alloc,
            prefix,
            position.saturating_add(base_number),
            "",
        )?;
    }
    Ok(())
}

// Lengths of steps: with the first of each pair a walk reaches all positions of a circle of forty, and with
// the second all of a circle of twelve.
const STEPS: [(u32, u32); 4] = [(3, 1), (7, 5), (11, 7), (13, 11)];

// Adds the quota and the list of programme `programme` of the docket `four_hundred_pairs`.
fn push_hundreds_programme(
    rows: &mut String,
    alloc: Global,
    programme: u32,
) -> Result<(), AllocError> {
    let (step, _) = STEPS[(programme % 4) as usize];
    push_numbered(rows, alloc, "Q,p", programme, "")?;
    push_numbered(rows, alloc, ",", programme % 4 + 1, "\n")?;
    push_numbered(rows, alloc, "P,p", programme, "")?;
    push_walk(rows, alloc, ",r", programme, (step, 40, 40), 0)?;
    rows.push_str("\n")
}

// Adds the list of resident `resident` of the docket `four_hundred_pairs`.
fn push_hundreds_resident(
    rows: &mut String,
    alloc: Global,
    resident: u32,
) -> Result<(), AllocError> {
    let (_, step) = STEPS[(resident % 4) as usize];
    push_numbered(rows, alloc, "R,r", resident, "")?;
    push_walk(rows, alloc, ",p", resident, (step, 10, 12), 0)?;
    rows.push_str("\n")
}

/// Twelve programmes with one to four places, thirty in all. Each ranks all forty residents, and each resident ranks
/// ten programmes: 400 pairs.
pub(super) fn four_hundred_pairs(alloc: Global) -> Result<String, AllocError> {
    let mut rows = String::new(alloc);
    for programme in 0..12u32 {
        push_hundreds_programme(&mut rows, alloc, programme)?;
    }
    for resident in 0..40u32 {
        push_hundreds_resident(&mut rows, alloc, resident)?;
    }
    Ok(rows)
}

// Adds the list of programme `programme` of the docket `widest_docket`: ten residents of each 2,000.
fn push_widest_list(rows: &mut String, alloc: Global, programme: u32) -> Result<(), AllocError> {
    push_numbered(rows, alloc, "P,p", programme, "")?;
    for thousands in 0..10u32 {
        push_walk(
            rows,
            alloc,
            ",r",
            programme,
            (1_801, 10, 2_000),
            thousands * 2_000,
        )?;
    }
    rows.push_str("\n")
}

/// A docket with the greatest numbers of programmes, residents and pairs. Each of 2,000 programmes has ten places and
/// ranks a hundred residents. Each of 20,000 residents ranks ten programmes, and all ranks are mutual.
pub(super) fn widest_docket(alloc: Global) -> Result<String, AllocError> {
    let mut rows = String::new(alloc);
    push_all_numbered(&mut rows, alloc, "Q,p", 2_000, ",10\n")?;
    for programme in 0..2_000u32 {
        push_widest_list(&mut rows, alloc, programme)?;
    }
    for resident in 0..20_000u32 {
        push_numbered(&mut rows, alloc, "R,r", resident, "")?;
        push_walk(&mut rows, alloc, ",p", resident, (199, 10, 2_000), 0)?;
        rows.push_str("\n")?;
    }
    Ok(rows)
}

/// A docket of ten programmes with 2,000 places each, and 20,000 residents. Each member ranks the other side in the
/// order of numbers.
pub(super) fn docket_in_one_order(alloc: Global) -> Result<String, AllocError> {
    let mut rows = String::new(alloc);
    push_all_numbered(&mut rows, alloc, "Q,p", 10, ",2000\n")?;
    push_lists(&mut rows, alloc)?;
    push_all_numbered(
        &mut rows,
        alloc,
        "R,r",
        20_000,
        ",p0,p1,p2,p3,p4,p5,p6,p7,p8,p9\n",
    )?;
    Ok(rows)
}

/// The sheet of the docket `docket_in_one_order`: the first 2,000 residents are at the first programme, the next 2,000
/// at the second, and so on.
pub(super) fn sheet_in_one_order(alloc: Global) -> Result<String, AllocError> {
    let mut rows = String::new(alloc);
    for resident in 0..20_000u32 {
        push_numbered(&mut rows, alloc, "M,r", resident, "")?;
        push_numbered(&mut rows, alloc, ",p", resident / 2_000, "\n")?;
    }
    push_all_numbered(&mut rows, alloc, "F,p", 10, ",2000,2000\n")?;
    Ok(rows)
}
