//! Matches of dockets that withdraw some of their members.
use crate::commands::{MATCH, NARROW_MATCH, serves};
use crate::texts::{QUOTAS_DOCKET, SMALL_DOCKET, UNLISTED_MEMBERS, VERSION_2};
use residency::Status;
use std::test::Fail;

const WITHDRAWN_MATCHES: [(&[&str], &str); 7] = [
    (
        &[VERSION_2, QUOTAS_DOCKET, "W,P,b\n"],
        "M,x,a\nM,y,a\nU,z\nF,a,2,2\nF,b,0,1\n",
    ),
    (
        &[VERSION_2, "W,P,b\n", QUOTAS_DOCKET],
        "M,x,a\nM,y,a\nU,z\nF,a,2,2\nF,b,0,1\n",
    ),
    (
        &[VERSION_2, QUOTAS_DOCKET, "W,R,x\n"],
        "U,x\nM,y,a\nM,z,a\nF,a,2,2\nF,b,0,1\n",
    ),
    // dockets in which all members withdraw, and in which all members of one side withdraw
    (
        &[
            VERSION_2,
            QUOTAS_DOCKET,
            "W,P,a\nW,P,b\nW,R,x\nW,R,y\nW,R,z\n",
        ],
        "U,x\nU,y\nU,z\nF,a,0,2\nF,b,0,1\n",
    ),
    (
        &[VERSION_2, QUOTAS_DOCKET, "W,P,b\nW,P,a\n"],
        "U,x\nU,y\nU,z\nF,a,0,2\nF,b,0,1\n",
    ),
    (
        &[VERSION_2, SMALL_DOCKET, UNLISTED_MEMBERS, "W,P,c\nW,R,z\n"],
        "M,x,a\nM,y,b\nU,z\nF,a,1,1\nF,b,1,1\nF,c,0,1\n",
    ),
    (&[VERSION_2], ""),
];

#[test]
fn matches_who_is_left(rt: HostRuntime) -> Result<(), Fail> {
    for (docket, sheet) in WITHDRAWN_MATCHES {
        for order in [MATCH, NARROW_MATCH] {
            let outcome = (Ok(Status::Closed), sheet, 0);
            assert!(rt; serves(rt, rt.alloc(), order, docket, outcome)?, "{sheet}");
        }
    }
    Ok(())
}
