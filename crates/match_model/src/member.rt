//! The numbers of programmes and residents.
ghost use Rattle.std.specs.Prelude.{ℕ};

use std::marker::Model;

/// A programme's number, from 0, in the order in which programmes were added.
#[derive(Clone, Copy, Debug, PartialEq, Eq, PartialOrd, Ord, Hash)]
pub struct ProgrammeNo(pub u32);

impl Model for ProgrammeNo {
    ghost Value = { ℕ };

    ghost view = { λ n. n.0 };

    ghost inverse = { λ n. record { 0 = n } };
}

/// A resident's number, from 0, in the order in which residents were added.
#[derive(Clone, Copy, Debug, PartialEq, Eq, PartialOrd, Ord, Hash)]
pub struct ResidentNo(pub u32);

impl Model for ResidentNo {
    ghost Value = { ℕ };

    ghost view = { λ n. n.0 };

    ghost inverse = { λ n. record { 0 = n } };
}
