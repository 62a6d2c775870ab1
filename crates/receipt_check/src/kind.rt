//! The sides of a match.
ghost use Rattle.std.specs.Prelude.{◌≡◌};
ghost use Rattle.receipt_check.specs.Receipt as receipt;

/// The side of the member to whom a receipt belongs.
#[derive(Clone, Copy, Debug, PartialEq, Eq)]
pub enum Kind {
    /// The member is a programme.
    Programme,
    /// The member is a resident.
    Resident,
}

impl Kind {
    /// The letter of the side.
    pub(crate) fn letter(self) -> &'static [u8]
        ensures { result.now ≡ receipt.letter_of self }
    {
        match self {
            Kind::Programme => b"P",
            Kind::Resident => b"R",
        }
    }

    /// Whether the member is a programme.
    pub(crate) fn is_programme(self) -> bool
        ensures { result ≡ receipt.is_programme self }
    {
        match self {
            Kind::Programme => true,
            Kind::Resident => false,
        }
    }
}
