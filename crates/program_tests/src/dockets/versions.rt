//! Dockets of version 2: their faults, and which members they withdraw.
use super::{first_wrong_line, read};
use crate::texts::{SMALL_DOCKET, VERSION_2, joined};
use match_model::{Instance, ProgrammeNo, ResidentNo};
use std::alloc::{AllocError, Global};
use std::test::Fail;
use test_support::events::{A, B, X, Y};

const VERSION_FAULTS: &str = "\
V,3 = record 1: unknown version
V,x = record 1: unknown version
V = record 1: wrong number of fields
Q,a,1 V,2 = record 2: unknown kind of row
V,2 = read
V,2,2 = record 1: wrong number of fields
V,02 = record 1: unknown version
V, = record 1: unknown version
V,3 Z = record 1: unknown version
V,2 V,2 = record 2: unknown kind of row
V,2 V,3 = record 2: unknown kind of row
v,2 = record 1: unknown kind of row";

const WITHDRAWAL_FAULTS: &str = "\
W,P,a = record 1: unknown kind of row
W = record 1: unknown kind of row
W,x = record 1: unknown kind of row
Q,a,1 W,P,a = record 2: unknown kind of row
Q,a,1 W,Q,/ = record 2: unknown kind of row
V,2 W,Q,a = record 2: bad withdrawal row
V,2 W,P,a = record 2: unknown name
V,2 Q,a,1 W,P,a W,P,a = record 4: declared twice
V,2 W = record 2: wrong number of fields
V,2 W,P = record 2: wrong number of fields
V,2 W,Q,/,a = record 2: wrong number of fields
V,2 W,Q,/ = record 2: bad withdrawal row
V,2 W,,a = record 2: bad withdrawal row
V,2 W,p,a = record 2: bad withdrawal row
V,2 W,P, = record 2: bad name
V,2 W,R,a/b = record 2: bad name
V,2 R,x W,R,x W,R,x = record 4: declared twice";

const WITHDRAWALS_AMONG_RECORDS: &str = "\
V,2 W,P,a Q,a,1 = read
V,2 W,R,x R,x = read
V,2 Q,a,1 R,a W,P,a W,R,a = read
V,2 R,x W,P,x = record 3: unknown name
V,2 Q,a,1 W,R,a = record 3: unknown name
V,2 W,P,a P,b = record 2: unknown name
V,2 P,b W,P,a = record 2: unknown name
V,2 W,P,a W,P,a Z = record 3: declared twice
V,2 W,R,z M,x,a = record 2: unknown name
V,2 W,R,z R,x,a,a = record 2: unknown name
V,2 Q,a,1 R,x W,P,a P,a,x,x = record 5: a name is listed twice
V,2 Q,a,1 R,x W,R,x P,a,x,x = record 5: a name is listed twice
V,2 Q,a,1 R,x W,R,x U,x F,a,0,1 = read
V,2 Q,a,1 R,x W,R,x F,a,0,1 = record 5: bad sheet";

#[test]
fn faults_of_version_2(rt: HostRuntime) -> Result<(), Fail> {
    for lines in [VERSION_FAULTS, WITHDRAWAL_FAULTS, WITHDRAWALS_AMONG_RECORDS] {
        assert!(rt; first_wrong_line(rt.alloc(), lines)? == None);
    }
    Ok(())
}

// Whether the instance says of this programme, as expected, whether it is withdrawn.
fn agrees_on_programme(instance: &Instance, programme: ProgrammeNo, is_withdrawn: bool) -> bool {
    programme.0 < instance.programmes() && instance.programme_withdrawn(programme) == is_withdrawn
}

// Whether the instance says of this resident, as expected, whether the resident is withdrawn.
fn agrees_on_resident(instance: &Instance, resident: ResidentNo, is_withdrawn: bool) -> bool {
    resident.0 < instance.residents() && instance.resident_withdrawn(resident) == is_withdrawn
}

// Whether exactly these members are withdrawn if these rows stand at the end of the small docket of
// version 2.
fn withdraws(alloc: Global, rows: &str, withdrawn_members: [bool; 4]) -> Result<bool, AllocError> {
    let docket_text = joined(alloc, &[VERSION_2, SMALL_DOCKET, rows])?;
    let [a_withdrawn, b_withdrawn, x_withdrawn, y_withdrawn] = withdrawn_members;
    match read(alloc, docket_text.as_str()) {
        Ok(docket) => Ok(
            agrees_on_programme(docket.instance(), A, a_withdrawn)
                && agrees_on_programme(docket.instance(), B, b_withdrawn)
                && agrees_on_resident(docket.instance(), X, x_withdrawn)
                && agrees_on_resident(docket.instance(), Y, y_withdrawn),
        ),
        Err(_) => Ok(false),
    }
}

#[test]
fn who_is_withdrawn(rt: HostRuntime) -> Result<(), Fail> {
    for (rows, withdrawn_members) in [
        ("", [false, false, false, false]),
        ("W,P,b\n", [false, true, false, false]),
        ("W,R,x\n", [false, false, true, false]),
        ("W,R,y\nW,P,a\n", [true, false, false, true]),
        ("W,P,a\nW,P,b\nW,R,x\nW,R,y\n", [true, true, true, true]),
    ] {
        assert!(rt; withdraws(rt.alloc(), rows, withdrawn_members)?, "{rows}");
    }
    Ok(())
}
