//! Small instances and assignments, made by hand.
use match_model::{
    Assignment, Instance, InstanceBuilder, Limits, ModelFault, ProgrammeNo, ResidentNo,
};
use std::alloc::Global;
use std::test::Fail;
use test_support::events::{A, B, X, Y, Z};
use test_support::markets::{TEN_PROGRAMMES, all_residents, made_in_one_order};
use test_support::members::{has_list, has_quota_and_list};

// A builder with one programme, which has one place, and with one resident.
fn two_member_builder(alloc: Global) -> Result<InstanceBuilder, ModelFault> {
    let mut builder = InstanceBuilder::new(alloc);
    builder.add_programme(1)?;
    builder.add_resident()?;
    Ok(builder)
}

#[test]
fn heeds_the_quota(rt: HostRuntime) {
    let mut builder = InstanceBuilder::new(rt.alloc());
    for (quota, expected_result) in [(10_001, Err(ModelFault::QuotaTooLarge)), (10_000, Ok(A))] {
        assert!(rt; builder.add_programme(quota) == expected_result, "{quota}");
    }
}

#[test]
fn refuses_in_order(rt: HostRuntime) -> Result<(), Fail> {
    let mut builder = two_member_builder(rt.alloc())?;
    let programme_lists: [(&[ResidentNo], Result<(), ModelFault>); 3] = [
        (&[Y], Err(ModelFault::NoSuchMember)),
        (&[X], Ok(())),
        (&[X], Err(ModelFault::ListGivenTwice)),
    ];
    for (list, expected_result) in programme_lists {
        assert!(rt; builder.programme_list(A, list) == expected_result);
    }
    let resident_lists: [(&[ProgrammeNo], Result<(), ModelFault>); 3] = [
        (&[B], Err(ModelFault::NoSuchMember)),
        (&[A, A], Err(ModelFault::ListedTwice)),
        (&[A], Ok(())),
    ];
    for (list, expected_result) in resident_lists {
        assert!(rt; builder.resident_list(X, list) == expected_result);
    }
    assert!(rt; builder.resident_list(Y, &[]) == Err(ModelFault::NoSuchMember));
    assert!(rt; has_pairs(builder, 1));
    Ok(())
}

// Whether the builder's instance has this number of acceptable pairs.
fn has_pairs(builder: InstanceBuilder, pairs: u32) -> bool {
    match builder.finish() {
        Ok(instance) => instance.pairs() == pairs,
        Err(_) => false,
    }
}

// A builder with two programmes, which have 2 places and 1 place, and with three residents.
fn five_member_builder(alloc: Global) -> Result<InstanceBuilder, ModelFault> {
    let mut builder = InstanceBuilder::new(alloc);
    for quota in [2, 1] {
        builder.add_programme(quota)?;
    }
    for _ in 0..3 {
        builder.add_resident()?;
    }
    Ok(builder)
}

// The instance of a programme and two residents who list each other and further members. It has only the mutual parts
// of these lists.
fn mutual_parts(alloc: Global) -> Result<Instance, ModelFault> {
    let mut builder = five_member_builder(alloc)?;
    builder.programme_list(A, &[Z, X, Y])?;
    builder.resident_list(X, &[B, A])?;
    builder.resident_list(Z, &[A])?;
    builder.finish().map_err(|refused| refused.fault)
}

// Whether the programme and the resident stand at these positions of each other's lists.
fn are_ranked(
    instance: &Instance,
    programme: ProgrammeNo,
    resident: ResidentNo,
    ranks: (Option<u32>, Option<u32>),
) -> bool {
    programme.0 < instance.programmes()
        && resident.0 < instance.residents()
        && instance.rank_at_programme(programme, resident) == ranks.0
        && instance.rank_at_resident(resident, programme) == ranks.1
}

#[test]
fn keeps_the_mutual_parts(rt: HostRuntime) -> Result<(), Fail> {
    let instance = mutual_parts(rt.alloc())?;
    let programmes_residents_pairs = [
        instance.programmes(),
        instance.residents(),
        instance.pairs(),
    ];
    assert!(rt; programmes_residents_pairs == [2, 3, 2]);
    assert!(rt; has_quota_and_list(&instance, A, 2, &[Z, X]));
    assert!(rt; has_quota_and_list(&instance, B, 1, &[]));
    assert!(rt; has_list(&instance, X, &[A]));
    for (resident, ranks) in [
        (X, (Some(1), Some(0))),
        (Y, (None, None)),
        (Z, (Some(0), Some(0))),
    ] {
        assert!(rt; are_ranked(&instance, A, resident, ranks));
    }
    Ok(())
}

// The resident whom a programme lists at this position, with the programme's position on that resident's list.
fn offer(instance: &Instance, programme: ProgrammeNo, list_position: u32) -> Option<(u32, u32)> {
    if programme.0 >= instance.programmes() {
        return None;
    }
    match instance.offer_at(programme, list_position) {
        Some((resident, rank)) => Some((resident.0, rank)),
        None => None,
    }
}

#[test]
fn tells_an_offer_with_its_rank(rt: HostRuntime) -> Result<(), Fail> {
    let mut builder = five_member_builder(rt.alloc())?;
    builder.programme_list(A, &[Z, X])?;
    builder.programme_list(B, &[X])?;
    builder.resident_list(X, &[B, A])?;
    builder.resident_list(Z, &[A])?;
    let instance = builder.finish().map_err(|refused| refused.fault)?;
    for (programme, list_position, resident_and_rank) in [
        (A, 0, Some((Z.0, 0))),
        (A, 1, Some((X.0, 1))),
        (A, 2, None),
        (B, 0, Some((X.0, 0))),
    ] {
        assert!(rt; offer(&instance, programme, list_position) == resident_and_rank);
    }
    for guess in 0..3 {
        assert!(rt; X.0 < instance.residents() && instance.rank_by_guess(X, A, guess) == Some(1));
    }
    Ok(())
}

#[test]
fn refuses_a_withdrawal_in_order(rt: HostRuntime) -> Result<(), Fail> {
    let mut empty_builder = InstanceBuilder::new(rt.alloc());
    assert!(rt; empty_builder.withdraw_resident(X) == Err(ModelFault::NoSuchMember));
    assert!(rt; empty_builder.withdraw_programme(A) == Err(ModelFault::NoSuchMember));
    let mut builder = two_member_builder(rt.alloc())?;
    for expected_result in [Ok(()), Err(ModelFault::WithdrawnTwice)] {
        assert!(rt; builder.withdraw_programme(A) == expected_result);
        assert!(rt; builder.withdraw_resident(X) == expected_result);
    }
    assert!(rt; builder.withdraw_programme(B) == Err(ModelFault::NoSuchMember));
    assert!(rt; has_pairs(builder, 0));
    Ok(())
}

#[test]
fn reads_the_list_of_whoever_is_withdrawn(rt: HostRuntime) -> Result<(), Fail> {
    let mut builder = two_member_builder(rt.alloc())?;
    builder.withdraw_programme(A)?;
    for (list, expected_result) in [
        ([X, Y], Err(ModelFault::NoSuchMember)),
        ([X, X], Err(ModelFault::ListedTwice)),
    ] {
        assert!(rt; builder.programme_list(A, &list) == expected_result);
    }
    assert!(rt; builder.programme_list(A, &[X]) == Ok(()));
    assert!(rt; builder.programme_list(A, &[X]) == Err(ModelFault::ListGivenTwice));
    assert!(rt; builder.resident_list(X, &[A]) == Ok(()));
    assert!(rt; has_pairs(builder, 0));
    Ok(())
}

// Two programmes and three residents with all their lists. These members are withdrawn before the lists are given if
// `withdraws_first` is set, else afterwards.
fn instance_without(
    alloc: Global,
    withdraws_first: bool,
    programmes: &[ProgrammeNo],
    residents: &[ResidentNo],
) -> Result<Instance, ModelFault> {
    let mut builder = five_member_builder(alloc)?;
    if !withdraws_first {
        add_lists(&mut builder)?;
    }
    for programme in programmes {
        builder.withdraw_programme(*programme)?;
    }
    for resident in residents {
        builder.withdraw_resident(*resident)?;
    }
    if withdraws_first {
        add_lists(&mut builder)?;
    }
    builder.finish().map_err(|refused| refused.fault)
}

// Gives the lists. The first programme and all three residents rank each other. The second programme ranks two
// residents, of whom only one ranks it.
fn add_lists(builder: &mut InstanceBuilder) -> Result<(), ModelFault> {
    builder.programme_list(A, &[X, Y, Z])?;
    builder.programme_list(B, &[Z, X])?;
    builder.resident_list(X, &[B, A])?;
    builder.resident_list(Y, &[A])?;
    builder.resident_list(Z, &[A])
}

// Whether exactly these of two programmes and three residents are withdrawn, and this many acceptable pairs remain.
fn has_withdrawn(
    instance: &Instance,
    pairs: u32,
    programmes_withdrawn: [bool; 2],
    residents_withdrawn: [bool; 3],
) -> bool {
    if instance.programmes() != 2 || instance.residents() != 3 {
        return false;
    }
    let withdrawn_residents = [
        instance.resident_withdrawn(X),
        instance.resident_withdrawn(Y),
        instance.resident_withdrawn(Z),
    ];
    instance.pairs() == pairs
        && [
            instance.programme_withdrawn(A),
            instance.programme_withdrawn(B),
        ] == programmes_withdrawn
        && withdrawn_residents == residents_withdrawn
}

#[test]
fn a_withdrawn_member_stands_on_no_list(rt: HostRuntime) -> Result<(), Fail> {
    for withdraws_first in [false, true] {
        let without_programme = instance_without(rt.alloc(), withdraws_first, &[B], &[])?;
        assert!(rt; has_withdrawn(&without_programme, 3, [false, true], [false; 3]));
        assert!(rt; has_quota_and_list(&without_programme, B, 1, &[]));
        assert!(rt; has_list(&without_programme, X, &[A]));
        let without_resident = instance_without(rt.alloc(), withdraws_first, &[], &[X])?;
        assert!(rt; has_withdrawn(&without_resident, 2, [false; 2], [true, false, false]));
        assert!(rt; has_quota_and_list(&without_resident, A, 2, &[Y, Z]));
        assert!(rt; has_quota_and_list(&without_resident, B, 1, &[]));
        assert!(rt; has_list(&without_resident, X, &[]));
        assert!(rt; are_ranked(&without_resident, A, Z, (Some(1), Some(0))));
        assert!(rt; are_ranked(&without_resident, A, X, (None, None)));
    }
    let without_all = instance_without(rt.alloc(), false, &[A, B], &[Z, X, Y])?;
    assert!(rt; has_withdrawn(&without_all, 0, [true; 2], [true; 3]));
    Ok(())
}

#[test]
fn whom_nobody_lists_may_withdraw(rt: HostRuntime) -> Result<(), Fail> {
    let mut builder = five_member_builder(rt.alloc())?;
    builder.programme_list(A, &[X])?;
    builder.resident_list(X, &[A])?;
    builder.withdraw_resident(Y)?;
    builder.withdraw_programme(B)?;
    assert!(rt; has_pairs(builder, 1));
    Ok(())
}

#[test]
fn takes_as_many_pairs_as_there_may_be(rt: HostRuntime) -> Result<(), Fail> {
    let instance = made_in_one_order(rt.alloc())?;
    let residents = all_residents(rt.alloc())?;
    assert!(rt; instance.pairs() == 200_000);
    assert!(rt; has_quota_and_list(&instance, ProgrammeNo(9), 2_000, residents.as_slice()));
    assert!(rt; has_list(&instance, ResidentNo(19_999), &TEN_PROGRAMMES));
    assert!(rt;
        are_ranked(
            &instance,
            ProgrammeNo(9),
            ResidentNo(19_999),
            (Some(19_999), Some(9))
        )
    );
    Ok(())
}

// Adds a resident, and as many programmes as there may be. Each of these programmes ranks this resident.
fn add_most_programmes(
    alloc: Global,
    builder: &mut InstanceBuilder,
) -> Result<Vec<ProgrammeNo>, ModelFault> {
    builder.add_resident()?;
    let mut programmes = Vec::new(alloc);
    for _ in 0..2_000 {
        let programme = builder.add_programme(1)?;
        builder.programme_list(programme, &[X])?;
        let Ok(()) = programmes.push(programme) else {
            return Err(ModelFault::Memory);
        };
    }
    Ok(programmes)
}

#[test]
fn a_resident_ranks_as_many_as_there_may_be(rt: HostRuntime) -> Result<(), Fail> {
    let mut builder = InstanceBuilder::new(rt.alloc());
    let programmes = add_most_programmes(rt.alloc(), &mut builder)?;
    assert!(rt; builder.resident_list(X, programmes.as_slice()) == Ok(()));
    assert!(rt; has_pairs(builder, 2_000));
    Ok(())
}

#[test]
fn assigns(rt: HostRuntime) -> Result<(), Fail> {
    let mut assignment = Assignment::new(rt.alloc(), 2)?;
    assert!(rt; assignment.len() == 2);
    assert_eq!(rt; assignment.get(Y), None);
    assignment.set(Y, Some(ProgrammeNo(7)));
    assert_eq!(rt; assignment.get(Y), Some(ProgrammeNo(7)));
    assert_eq!(rt; assignment.get(X), None);
    Ok(())
}

#[test]
fn national_limits_take_more(rt: HostRuntime) -> Result<(), Fail> {
    let mut builder = InstanceBuilder::within(rt.alloc(), Limits::National);
    for _ in 0..10_000 {
        builder.add_programme(1)?;
    }
    assert!(rt; builder.add_programme(1) == Err(ModelFault::TooManyProgrammes));
    assert!(rt; builder.limits() == Limits::National);
    Ok(())
}

#[test]
fn national_faults_name_their_numbers(rt: HostRuntime) {
    for (fault, fault_text) in [
        (ModelFault::TooManyProgrammes, "more than 10000 programmes"),
        (ModelFault::TooManyResidents, "more than 100000 residents"),
        (
            ModelFault::TooManyPairs,
            "more than 2000000 acceptable pairs",
        ),
    ] {
        let limit_fault = fault.within(Limits::National);
        let printed_fault = format!(in rt.alloc(); "{limit_fault}").expect(&rt, "a text");
        assert!(rt; printed_fault.as_str() == fault_text, "{printed_fault}");
    }
}

#[test]
fn prints_its_faults(rt: HostRuntime) {
    let faults = [
        (ModelFault::TooManyProgrammes, "more than 2000 programmes"),
        (ModelFault::TooManyResidents, "more than 20000 residents"),
        (ModelFault::QuotaTooLarge, "quota over 10000"),
        (ModelFault::NoSuchMember, "no such member"),
        (ModelFault::ListGivenTwice, "a list was given twice"),
        (ModelFault::ListedTwice, "a name is listed twice"),
        (
            ModelFault::TooManyPairs,
            "more than 200000 acceptable pairs",
        ),
        (ModelFault::Memory, "out of memory"),
        (ModelFault::WithdrawnTwice, "a member is withdrawn twice"),
    ];
    for (fault, fault_text) in faults {
        let printed_fault = format!(in rt.alloc(); "{fault}").expect(&rt, "a text");
        assert!(rt; printed_fault.as_str() == fault_text, "{printed_fault}");
    }
}
