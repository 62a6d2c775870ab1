//! The same docket in many forms, fields that are not names, and a reader that fails.
use super::{first_wrong_line, has_outcome, read, read_slowly};
use crate::texts::SMALL_DOCKET;
use docket::{Docket, DocketFault, read_docket};
use match_model::{Instance, ProgrammeNo, ResidentNo};
use std::test::Fail;
use test_support::events::{A, B, X, Y};
use test_support::members::{has_list, has_quota_and_list};

// Lines that end with CR and LF, a blank line, and quotes.
const CR_AND_LF: &str = "Q,\"a\",1\r\nQ,b,1\r\n\r\nP,a,x,y\r\nP,b,y,x\r\nR,x,b,a\r\nR,y,a,b\r\n";

// Lines that end with CR alone, and a last line without an end.
const CR_ALONE: &str = "Q,a,1\rQ,b,1\rP,a,x,y\rP,b,y,x\rR,x,b,a\rR,y,a,b";

// A byte order mark, and blank lines.
const MARK_AND_BLANKS: &str =
    "\u{feff}\n\nQ,a,1\nQ,b,1\n\r\n\nP,a,x,y\nP,b,y,x\n\r\rR,x,b,a\nR,y,a,b\n\n\n";

const QUOTED_FIELDS: &str =
    "\"Q\",\"a\",\"1\"\n\"Q\",b,\"1\"\n\"P\",a,x,\"y\"\nP,b,y,x\n\"R\",\"x\",b,a\nR,\"y\",a,b\n";

// Numbers with leading zeros, and rows in another order than in `SMALL_DOCKET`.
const ANOTHER_ORDER: &str = "R,x,b,a\nP,b,y,x\nQ,a,01\nR,y,a,b\nP,a,x,y\nQ,b,000000001\n";

// Whether a programme of the docket has this name.
fn is_programme_named(docket: &Docket, programme: ProgrammeNo, name: &str) -> bool {
    programme.0 < docket.instance().programmes() && docket.programme_name(programme) == name
}

// Whether a resident of the docket has this name.
fn is_resident_named(docket: &Docket, resident: ResidentNo, name: &str) -> bool {
    resident.0 < docket.instance().residents() && docket.resident_name(resident) == name
}

// Whether the docket's names are those of `SMALL_DOCKET`.
fn has_small_names(docket: &Docket) -> bool {
    is_programme_named(docket, A, "a")
        && is_programme_named(docket, B, "b")
        && is_resident_named(docket, X, "x")
        && is_resident_named(docket, Y, "y")
}

// Whether the instance is the instance of `SMALL_DOCKET`.
fn is_small_instance(instance: &Instance) -> bool {
    instance.programmes() == 2
        && instance.residents() == 2
        && has_quota_and_list(instance, A, 1, &[X, Y])
        && has_quota_and_list(instance, B, 1, &[Y, X])
        && has_list(instance, X, &[B, A])
        && has_list(instance, Y, &[A, B])
}

// Whether the docket that was read is the docket of `SMALL_DOCKET`.
fn is_small_docket(reading: Result<Docket, DocketFault>) -> bool {
    match reading {
        Ok(docket) => has_small_names(&docket) && is_small_instance(docket.instance()),
        Err(_) => false,
    }
}

#[test]
fn one_docket_in_many_forms(rt: HostRuntime) {
    for form in [
        SMALL_DOCKET,
        CR_AND_LF,
        CR_ALONE,
        MARK_AND_BLANKS,
        QUOTED_FIELDS,
        ANOTHER_ORDER,
    ] {
        assert!(rt; is_small_docket(read(rt.alloc(), form)), "{form}");
        assert!(rt;
            is_small_docket(read_slowly(rt.alloc(), form, usize::MAX)),
            "{form}"
        );
    }
}

// A NUL, bytes above 127, a tab, quotes within fields, line ends within quotes, an empty field, blank lines, and a byte
// order mark.
const FIELD_FORMS: &str = "\
Q,a\0,1 = record 1: bad name
Q,a,1 R,\u{e9} = record 2: bad name
Q,a\t,1 = record 1: bad name
Q,\"a b\",1 = record 1: bad name
Q,\"a\"\"b\",1 = record 1: bad name
Q,a\"b\",1 = record 1: bad name
Q,\"\",1 = record 1: bad name
P,a, = record 1: bad name
Q,a,1, = record 1: wrong number of fields
Q,\"a,1 Q,b,1 = record 1: wrong number of fields
Q,a,1 \0 = record 2: unknown kind of row
\"\" = record 1: unknown kind of row
Q,a,1\r\rZ = record 2: unknown kind of row
  Q,a,1   Z   = record 2: unknown kind of row
Q,a,1 \u{feff}Q,b,1 = record 2: unknown kind of row
\u{feff}Z = record 1: unknown kind of row
\u{feff} = read";

// Bytes that are not text, each with the outcome of reading them.
const BYTES_THAT_ARE_NO_TEXT: [(&[u8], &str); 5] = [
    (b"Q,\xff,1\n", "record 1: bad name"),
    (b"Q,\x80,1\n", "record 1: bad name"),
    (b"Q, a,1\n", "record 1: bad name"),
    (b" \n", "record 1: unknown kind of row"),
    (b"", "read"),
];

#[test]
fn fields_that_are_no_names(rt: HostRuntime) -> Result<(), Fail> {
    assert!(rt; first_wrong_line(rt.alloc(), FIELD_FORMS)? == None);
    for (input, outcome) in BYTES_THAT_ARE_NO_TEXT {
        assert!(rt;
            has_outcome(rt.alloc(), read_docket(&rt, rt.alloc(), input), outcome)?,
            "{outcome}"
        );
    }
    Ok(())
}

// Numbers of bytes of `SMALL_DOCKET` after which a reader fails, each with the number of the unfinished record.
const READER_CUTS: [(usize, u32); 9] = [
    (0, 1),
    (5, 1),
    (6, 2),
    (12, 3),
    (20, 4),
    (27, 4),
    (28, 5),
    (43, 6),
    (44, 7),
];

#[test]
fn a_reader_that_fails(rt: HostRuntime) {
    for (good_bytes, record_number) in READER_CUTS {
        let reading = read_slowly(rt.alloc(), SMALL_DOCKET, good_bytes);
        assert!(rt;
            reading.err()
                == Some(DocketFault::Read {
                    place: record_number
                }),
            "{good_bytes}"
        );
    }
    // a fault in a record before the reader's failure is reported first
    let reading = read_slowly(rt.alloc(), "Q,a,1\nZ\nQ,b,1\n", 9);
    assert!(rt; reading.err() == Some(DocketFault::UnknownKind { place: 2 }));
}
