//! Names that begin alike, and a machine without random bytes for hashing names.
use super::{has_outcome, reads_as};
use crate::texts::SMALL_DOCKET;
use docket::read_docket;
use std::test::Fail;
use test_support::randomness::NoRandomness;

// Names each of which begins with the name before it, or differs from that name only in its last byte.
const ALIKE_RESIDENTS: &str =
    "R,abcdefg\nR,abcdefgh\nR,abcdefgi\nR,abcdefghi\nR,abcdefghj\nR,abcdefghijklmnop\nR,abcdefghijklmnoq\nR,abcdefghijklmnopq\nR,abcdefghijklmnopqrstuvwxyz01234\nR,abcdefghijklmnopqrstuvwxyz012345\nR,abcdefghijklmnopqrstuvwxyz012346\n";

const LONGEST_NAME_AGAIN: &str = "R,abcdefghijklmnopqrstuvwxyz012345\n";

#[test]
fn names_alike_in_front(rt: HostRuntime) -> Result<(), Fail> {
    let alloc = rt.alloc();
    assert!(rt; reads_as(alloc, &[ALIKE_RESIDENTS], "read")?);
    assert!(rt;
        reads_as(
            alloc,
            &[ALIKE_RESIDENTS, LONGEST_NAME_AGAIN],
            "record 12: declared twice"
        )?
    );
    Ok(())
}

#[test]
fn no_randomness(rt: HostRuntime) -> Result<(), Fail> {
    let reading = read_docket(&NoRandomness, rt.alloc(), SMALL_DOCKET.as_bytes());
    assert!(rt; has_outcome(rt.alloc(), reading, "record 1: the input could not be read")?);
    Ok(())
}
