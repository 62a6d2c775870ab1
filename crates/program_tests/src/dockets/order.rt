//! Dockets with two faults, and which of the two is reported.
use super::{first_wrong_line, first_wrong_line_of_version_2};
use std::test::Fail;

// Two faults in the same record. A wrong number of fields is reported before a bad name, and a bad name before a bad
// number or a bad kind of answer. After these comes a name that is declared twice, and then a limit. In the later
// passes, an undeclared name is reported before a name that is listed twice, and before a second row of the same
// member.
const TWO_FAULTS_IN_ONE_RECORD: &str = "\
Q,/,1,1 = record 1: wrong number of fields
Q,/,x = record 1: bad name
F,/,x,1 = record 1: bad name
F,/,1 = record 1: wrong number of fields
C,0,0,0 = record 1: wrong number of fields
E,stop,/,/,keep,more = record 1: bad journal row
E,answer,/,a = record 1: wrong number of fields
E,answer,/,a,keep = record 1: bad name
E,offer,/,x = record 1: bad name
Q,a,1 Q,a,x = record 2: bad quota
Q,a,1 Q,a,10001 = record 2: declared twice
Q,a,1 R,x P,a,x,x,y = record 3: unknown name
P,b,x,x R,x = record 1: unknown name
R,x U,x M,x,b = record 3: unknown name";

// Two faults in two records, both found by the same pass.
const TWO_FAULTS_IN_ONE_PASS: &str = "\
Q,a,x Z = record 1: bad quota
Q,a,10001 Q,/,1 = record 1: quota over 10000
R,x R,x M,x = record 2: declared twice
R,x,a,a P,a,y Q,a,1 = record 1: a name is listed twice
P,a,y R,x,a,a Q,a,1 = record 1: unknown name
R,x U,x U,x U,y = record 3: bad sheet
R,x U,x U,y U,x = record 3: unknown name
Q,a,1 Q,b,1 F,b,1,1 F,a,1,1 = record 3: bad sheet
C,full E,close E,offer,a,x E,take,x,a = record 3: unknown name";

// Two faults in two records, found by two passes. The earlier pass finds its fault in the later record. The passes
// are the first, the second, and the third in each of its walks.
const TWO_FAULTS_IN_TWO_PASSES: &str = "\
Q,a,1 P,b Z = record 3: unknown kind of row
Q,a,1 P,b Q,c,10001 = record 3: quota over 10000
M,x,a Z = record 2: unknown kind of row
R,x U,x U,x R,x = record 4: declared twice
C,full E,offer,a,x C,full = record 3: bad journal row
M,x,a U,z P,a = record 3: unknown name
F,a,5,1 Q,a,1 R,x,a,a = record 3: a name is listed twice
C,full E,offer,b,y Q,a,1 R,x,a,a = record 4: a name is listed twice
C,full E,take,y,a M,x,a = record 3: unknown name
C,full E,take,y,a R,x U,x U,x R,z = record 5: bad sheet
C,full E,take,y,a R,x R,z U,x = record 5: bad sheet
C,full E,take,y,a Q,a,1 F,a,1,1 = record 4: bad sheet";

// Two faults in a sheet, found by different walks of the third pass: an unknown name or a second row, then a member
// without a row, then wrong numbers of places.
const TWO_FAULTS_IN_TWO_WALKS: &str = "\
R,x R,y U,x U,x C,full = record 4: bad sheet
R,x R,y U,x U,z C,full = record 4: unknown name
Q,a,1 R,x F,a,5,1 M,x,a M,x,a = record 5: bad sheet
Q,a,1 R,x F,a,5,1 M,x,a U,z = record 5: unknown name
Q,a,1 R,x F,a,5,1 C,full = record 4: bad sheet
Q,a,1 Q,b,1 F,a,5,1 C,full E,close = record 5: bad sheet
Q,a,1 R,x F,a,5,1 M,x,a C,full = record 3: bad sheet
Q,a,1 R,x F,a,1,1 M,x,a C,full = read";

#[test]
fn two_faults(rt: HostRuntime) -> Result<(), Fail> {
    for lines in [
        TWO_FAULTS_IN_ONE_RECORD,
        TWO_FAULTS_IN_ONE_PASS,
        TWO_FAULTS_IN_TWO_PASSES,
        TWO_FAULTS_IN_TWO_WALKS,
    ] {
        assert!(rt; first_wrong_line(rt.alloc(), lines)? == None);
        assert!(rt; first_wrong_line_of_version_2(rt.alloc(), lines)? == None);
    }
    Ok(())
}
