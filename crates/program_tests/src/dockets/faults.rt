//! Each fault of a docket, in a docket with this fault alone.
use super::{first_wrong_line, first_wrong_line_of_version_2, has_outcome};
use docket::DocketFault;
use std::test::Fail;

const KIND_FAULTS: &str = "\
Z,a = record 1: unknown kind of row
q,a,1 = record 1: unknown kind of row
QQ,a,1 = record 1: unknown kind of row
,a,1 = record 1: unknown kind of row";

const FIELD_COUNT_FAULTS: &str = "\
Q = record 1: wrong number of fields
Q,a = record 1: wrong number of fields
Q,a,1,1 = record 1: wrong number of fields
P = record 1: wrong number of fields
R = record 1: wrong number of fields
M,x = record 1: wrong number of fields
M,x,a,a = record 1: wrong number of fields
U = record 1: wrong number of fields
U,x,a = record 1: wrong number of fields
F,a,1 = record 1: wrong number of fields
F,a,1,1,1 = record 1: wrong number of fields
C = record 1: wrong number of fields
C,full,2,2 = record 1: wrong number of fields
E = record 1: wrong number of fields
E,offer,a = record 1: wrong number of fields
E,offer,a,x,hold = record 1: wrong number of fields
E,take,x = record 1: wrong number of fields
E,take,x,a,hold = record 1: wrong number of fields
E,answer,x,a = record 1: wrong number of fields
E,answer,x,a,hold,hold = record 1: wrong number of fields
E,hear,a,x = record 1: wrong number of fields
E,hear,a,x,hold,hold = record 1: wrong number of fields
E,close,a = record 1: wrong number of fields";

const NAME_FAULTS: &str = "\
Q,,1 = record 1: bad name
Q,a/b,1 = record 1: bad name
Q,abcdefghijklmnopqrstuvwxyz012345,1 = read
Q,abcdefghijklmnopqrstuvwxyz0123456,1 = record 1: bad name
Q,AZaz09-_.,000000000 = read
P,a,x, = record 1: bad name
P,,x = record 1: bad name
R,x@y = record 1: bad name
R,x,a,b+ = record 1: bad name
M,,a = record 1: bad name
M,x, = record 1: bad name
U, = record 1: bad name
F,,0,0 = record 1: bad name
E,offer,,x = record 1: bad name
E,take,x, = record 1: bad name
E,answer,x,,hold = record 1: bad name
E,hear,,x,hold = record 1: bad name";

const NUMBER_AND_WORD_FAULTS: &str = "\
Q,a, = record 1: bad quota
Q,a,x = record 1: bad quota
Q,a,-1 = record 1: bad quota
Q,a,+1 = record 1: bad quota
Q,a,1.0 = record 1: bad quota
Q,a,0000000001 = record 1: bad quota
F,a,,1 = record 1: bad sheet
F,a,1,x = record 1: bad sheet
C, = record 1: bad journal row
C,0 = record 1: bad journal row
C,1025 = record 1: bad journal row
C,Full = record 1: bad journal row
E,stop = record 1: bad journal row
E, = record 1: bad journal row
C,full E,answer,x,a,keep = record 2: bad journal row
C,full E,hear,a,x, = record 2: bad journal row";

const WORKER_FAULTS: &str = "\
C,full,8 = read
C,1,008 = read
C,full,0 = record 1: bad journal row
C,full,9 = record 1: bad journal row
C,full, = record 1: bad journal row
C,full,x = record 1: bad journal row
C,0,2 = record 1: bad journal row
C,full,2 C,full = record 2: bad journal row
C,full,2 E,close,1 = read
C,full,8 E,close,007 E,close,0 = read
C,full,2 E,close,2 = record 2: bad journal row
C,full,1 E,close,1 = record 2: bad journal row
C,full,2 E,close, = record 2: bad journal row
C,full,2 E,close,+1 = record 2: bad journal row
C,full,2 E,close,4294967296 = record 2: bad journal row
C,full,2 E,close = record 2: wrong number of fields
C,full,2 E,close,1,1 = record 2: wrong number of fields
C,full,2 E,offer,a,x = record 2: wrong number of fields
C,full,2 E,answer,x,a,hold = record 2: wrong number of fields
C,full,2 E,answer,x,a,keep,1 = record 2: bad journal row
C,full,2 E,hear,a,/,hold,2 = record 2: bad name
C,full,2 E,take,x,a,0 = record 2: unknown name
C,full E,close,0 = record 2: wrong number of fields
E,close,0 C,full,2 = record 1: wrong number of fields
E,close C,full,2 = record 1: bad journal row";

const EARLIER_ROW_FAULTS: &str = "\
E,close = record 1: bad journal row
C,1 C,1 = record 2: bad journal row
C,1024 E,close E,close C,1 = record 4: bad journal row
C,full E,close E,close = read
Q,a,1 Q,b,1 Q,a,2 = record 3: declared twice
R,x R,x = record 2: declared twice
Q,a,1 P,a R,x P,a,x = record 4: declared twice
Q,a,1 R,a,a P,a,a = read
Q,a,10001 = record 1: quota over 10000
Q,a,1 Q,b,999999999 = record 2: quota over 10000";

const LIST_FAULTS: &str = "\
R,x,a P,a,x Q,a,1 = read
Q,a,1 P,b = record 2: unknown name
Q,a,1 R,x P,a,x,y = record 3: unknown name
Q,a,1 P,a,a = record 2: unknown name
Q,a,1 R,x,a,b = record 2: unknown name
R,x,x = record 1: unknown name
Q,a,1 P,a,x,x R,x,a = record 2: a name is listed twice
Q,a,1 Q,b,1 R,x,a,b,a = record 3: a name is listed twice";

const SHEET_FAULTS: &str = "\
M,x,a = record 1: unknown name
Q,a,1 M,x,a = record 2: unknown name
R,x M,x,a = record 2: unknown name
R,x U,y = record 2: unknown name
Q,a,1 F,b,0,1 = record 2: unknown name
R,x U,x U,x = record 3: bad sheet
Q,a,1 R,x M,x,a U,x = record 4: bad sheet
Q,a,1 R,x U,x M,x,a = record 4: bad sheet
Q,a,1 F,a,0,1 F,a,0,1 = record 3: bad sheet
R,x R,y U,x C,full = record 4: bad sheet
Q,a,1 R,x F,a,0,1 = record 3: bad sheet
Q,a,1 R,x U,x C,full = record 4: bad sheet
Q,a,1 F,a,1,1 C,full = record 2: bad sheet
Q,a,1 F,a,0,2 C,full = record 2: bad sheet
Q,a,1 Q,b,1 R,x M,x,b F,a,0,1 F,b,0,1 = record 6: bad sheet
F,a,2,1 M,x,a U,z M,y,a R,x R,y R,z Q,a,1 = read";

const EVENT_FAULTS: &str = "\
C,full E,offer,a,x = record 2: unknown name
Q,a,1 R,x C,full E,offer,b,x = record 4: unknown name
Q,a,1 R,x C,full E,offer,x,a = record 4: unknown name
Q,a,1 R,x C,full E,take,y,a = record 4: unknown name
Q,a,1 R,x C,full E,answer,x,b,hold = record 4: unknown name
Q,a,1 R,x C,full E,hear,a,y,hold = record 4: unknown name
C,0007 E,take,x,a E,hear,a,x,decline Q,a,0 R,x = read";

#[test]
fn faults_of_one_record(rt: HostRuntime) -> Result<(), Fail> {
    for lines in [
        KIND_FAULTS,
        FIELD_COUNT_FAULTS,
        NAME_FAULTS,
        NUMBER_AND_WORD_FAULTS,
    ] {
        assert!(rt; first_wrong_line(rt.alloc(), lines)? == None);
        assert!(rt; first_wrong_line_of_version_2(rt.alloc(), lines)? == None);
    }
    Ok(())
}

#[test]
fn faults_among_records(rt: HostRuntime) -> Result<(), Fail> {
    for lines in [
        WORKER_FAULTS,
        EARLIER_ROW_FAULTS,
        LIST_FAULTS,
        SHEET_FAULTS,
        EVENT_FAULTS,
    ] {
        assert!(rt; first_wrong_line(rt.alloc(), lines)? == None);
        assert!(rt; first_wrong_line_of_version_2(rt.alloc(), lines)? == None);
    }
    Ok(())
}

#[test]
fn faults_without_a_record(rt: HostRuntime) -> Result<(), Fail> {
    for (fault, fault_text) in [
        (DocketFault::Memory, "out of memory"),
        (DocketFault::Write, "the output could not be written"),
    ] {
        assert!(rt;
            has_outcome(rt.alloc(), Err(fault), fault_text)?,
            "{fault_text}"
        );
    }
    Ok(())
}
