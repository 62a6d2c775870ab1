//! Audits of sheets. Some of the sheets were made before a member withdrew.
use crate::commands::{serves, serves_both};
use crate::texts::{
    FULL_CAPACITY, ONE_SIDED_DOCKET, OTHER_SHEET, QUOTAS_DOCKET, QUOTAS_SHEET, SMALL_DOCKET,
    SMALL_JOURNAL, SMALL_SHEET, UNLISTED_MEMBERS, VERSION_2,
};
use residency::{Order, Status};
use std::test::Fail;

#[test]
fn audits(rt: HostRuntime) -> Result<(), Fail> {
    let cases: [(&[&str], Status, &str, u8); 5] = [
        (&[], Status::Stable, "S,stable\n", 0),
        (
            &[SMALL_DOCKET, FULL_CAPACITY, SMALL_JOURNAL, OTHER_SHEET],
            Status::Stable,
            "S,stable\n",
            0,
        ),
        (
            &["Q,a,2\nP,a,x,y\nR,x,a\nR,y,a\nM,x,a\nU,y\nF,a,1,2\n"],
            Status::Unstable,
            "S,unstable\nB,y,a\n",
            4,
        ),
        (
            &[SMALL_DOCKET, "M,x,a\nM,y,a\nF,a,2,1\nF,b,0,1\n"],
            Status::Unstable,
            "S,unstable\nO,a,2,1\nB,x,b\n",
            4,
        ),
        (
            &[ONE_SIDED_DOCKET, "M,x,a\nF,a,1,1\n"],
            Status::Unstable,
            "S,unstable\nX,x,a\n",
            4,
        ),
    ];
    for (docket, status, report, exit_code) in cases {
        let outcome = (Ok(status), report, exit_code);
        assert!(rt;
            serves_both(rt, rt.alloc(), Order::Audit, docket, outcome)?,
            "{report}"
        );
    }
    Ok(())
}

// Sheets that were made before a member withdrew, each with its report.
const OLD_SHEET_AUDITS: [(&[&str], Status, &str, u8); 4] = [
    (
        &[VERSION_2, SMALL_DOCKET, "W,R,x\n", SMALL_SHEET],
        Status::Unstable,
        "S,unstable\nX,x,a\nB,y,a\n",
        4,
    ),
    (
        &[VERSION_2, QUOTAS_DOCKET, "W,P,b\n", QUOTAS_SHEET],
        Status::Unstable,
        "S,unstable\nX,x,b\nB,x,a\n",
        4,
    ),
    (
        &[
            VERSION_2,
            SMALL_DOCKET,
            SMALL_SHEET,
            "U,z\nF,c,0,1\n",
            UNLISTED_MEMBERS,
            "W,R,z\nW,P,c\n",
        ],
        Status::Stable,
        "S,stable\n",
        0,
    ),
    (
        &[
            VERSION_2,
            QUOTAS_DOCKET,
            "W,P,b\nM,x,a\nM,y,a\nU,z\nF,a,2,2\nF,b,0,1\n",
        ],
        Status::Stable,
        "S,stable\n",
        0,
    ),
];

#[test]
fn audits_of_old_sheets(rt: HostRuntime) -> Result<(), Fail> {
    for (docket, status, report, exit_code) in OLD_SHEET_AUDITS {
        let outcome = (Ok(status), report, exit_code);
        assert!(rt;
            serves(rt, rt.alloc(), Order::Audit, docket, outcome)?,
            "{report}"
        );
    }
    Ok(())
}
