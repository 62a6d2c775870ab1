//! Dockets with a fault, or with a part missing. Each command reports the fault or the missing
//! part, and writes nothing.
use crate::commands::{MATCH, serves, serves_both};
use crate::texts::{
    CLOSE_EVENT, FULL_CAPACITY, SMALL_DOCKET, SMALL_SHEET, THREE_RECORDS, VERSION_2,
};
use docket::DocketFault;
use match_model::ModelFault;
use residency::{Order, ServeFault, Status};
use std::test::Fail;

// Faults that each pass over the rows finds. The last four are faults of the small docket, cut after 3, 20, 34 and 35
// bytes.
const READING_FAULTS: [(&[&str], DocketFault); 17] = [
    (&["Q,a,1\nQ,b,x\n"], DocketFault::BadQuota { place: 2 }),
    (&["Q,a\n"], DocketFault::FieldCount { place: 1 }),
    (&["Z,a\n"], DocketFault::UnknownKind { place: 1 }),
    (&["Q,a/b,1\n"], DocketFault::BadName { place: 1 }),
    (&["Q,a,\n"], DocketFault::BadQuota { place: 1 }),
    (&["Q,a,1\nQ,a,2\n"], DocketFault::DeclaredTwice { place: 2 }),
    (&["Q,a,1\nP,b\n"], DocketFault::UnknownName { place: 2 }),
    (&["M,x,a\n"], DocketFault::UnknownName { place: 1 }),
    (&[CLOSE_EVENT], DocketFault::BadEvent { place: 1 }),
    (
        &["Q,a,1\nR,x,a\nF,a,0,1\n"],
        DocketFault::BadSheet { place: 3 },
    ),
    (
        &["Q,a,1\nP,a,x,x\nR,x,a\n"],
        DocketFault::Model {
            place: 2,
            fault: ModelFault::ListedTwice,
        },
    ),
    (
        &[SMALL_DOCKET, "M,x,a\nM,y,b\nF,a,2,1\nF,b,1,1\n"],
        DocketFault::BadSheet { place: 9 },
    ),
    (
        &[SMALL_DOCKET, SMALL_SHEET, FULL_CAPACITY, "E,offer,a,z\n"],
        DocketFault::UnknownName { place: 12 },
    ),
    (&["Q,a"], DocketFault::FieldCount { place: 1 }),
    (&[THREE_RECORDS], DocketFault::UnknownName { place: 3 }),
    (
        &[THREE_RECORDS, "P,b,y,x\nR,x,b,"],
        DocketFault::BadName { place: 5 },
    ),
    (
        &[THREE_RECORDS, "P,b,y,x\nR,x,b,a"],
        DocketFault::UnknownName { place: 3 },
    ),
];

#[test]
fn tells_faults_of_reading(rt: HostRuntime) -> Result<(), Fail> {
    for (docket, fault) in READING_FAULTS {
        for order in [MATCH, Order::Audit, Order::Replay] {
            let outcome = (Err(ServeFault::Docket(fault)), "", 3);
            assert!(rt;
                serves_both(rt, rt.alloc(), order, docket, outcome)?,
                "{fault}"
            );
        }
    }
    Ok(())
}

#[test]
fn tells_what_a_docket_lacks(rt: HostRuntime) -> Result<(), Fail> {
    for (order, fault) in [
        (Order::Audit, ServeFault::NoSheet),
        (Order::Replay, ServeFault::NoJournal),
    ] {
        assert!(rt; serves_both(rt, rt.alloc(), order, &[SMALL_DOCKET], (Err(fault), "", 3))?);
    }
    Ok(())
}

// The small docket of version 2 without one programme, cut short so that it has a fault.
const CUT_DOCKETS: [(&[&str], DocketFault); 6] = [
    (&["V"], DocketFault::FieldCount { place: 1 }),
    (&["V,"], DocketFault::BadVersion { place: 1 }),
    (
        &[VERSION_2, SMALL_DOCKET, "W"],
        DocketFault::FieldCount { place: 8 },
    ),
    (
        &[VERSION_2, SMALL_DOCKET, "W,"],
        DocketFault::FieldCount { place: 8 },
    ),
    (
        &[VERSION_2, SMALL_DOCKET, "W,P"],
        DocketFault::FieldCount { place: 8 },
    ),
    (
        &[VERSION_2, SMALL_DOCKET, "W,P,"],
        DocketFault::BadName { place: 8 },
    ),
];

#[test]
fn cuts_of_version_2(rt: HostRuntime) -> Result<(), Fail> {
    for (docket, fault) in CUT_DOCKETS {
        for order in [MATCH, Order::Audit, Order::Replay] {
            let outcome = (Err(ServeFault::Docket(fault)), "", 3);
            assert!(rt; serves(rt, rt.alloc(), order, docket, outcome)?, "{fault}");
        }
    }
    for (docket, sheet) in [
        (&["V,2"] as &[&str], ""),
        (
            &[VERSION_2, SMALL_DOCKET, "W,P,b"],
            "M,x,a\nU,y\nF,a,1,1\nF,b,0,1\n",
        ),
    ] {
        let outcome = (Ok(Status::Closed), sheet, 0);
        assert!(rt; serves(rt, rt.alloc(), MATCH, docket, outcome)?, "{sheet}");
    }
    Ok(())
}
