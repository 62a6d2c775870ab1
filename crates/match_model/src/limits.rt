//! The limits of an instance.
ghost use Rattle.std.specs.Prelude.{◌≡◌, ◌≤◌};
ghost use Rattle.match_model.specs.Limits.{most_programmes, most_residents, most_pairs};
ghost use Rattle.match_model.specs.declared.limits.Limits.TheVariants.{Standard, National};

/// The largest number of programmes that any instance may have.
pub const MAX_PROGRAMMES: usize = 65_536;

/// The largest number of residents that any instance may have.
pub const MAX_RESIDENTS: usize = 1_000_000;

/// The largest number of acceptable pairs that any instance may have.
pub const MAX_PAIRS: usize = 20_000_000;

/// The largest quota of a programme.
pub const MAX_QUOTA: u32 = 10_000;

/// The largest number of programmes within the national limits.
pub const NATIONAL_PROGRAMMES: usize = 10_000;

/// The largest number of residents within the national limits.
pub const NATIONAL_RESIDENTS: usize = 100_000;

/// The limits that apply to a builder's numbers of members and pairs.
#[derive(Clone, Copy, Debug, PartialEq, Eq)]
pub enum Limits {
    /// 2,000 programmes, 20,000 residents and 200,000 acceptable pairs
    Standard,
    /// 10,000 programmes, 100,000 residents and 2,000,000 acceptable pairs
    National,
}

impl Limits {
    /// The largest number of programmes within these limits.
    pub fn programmes(self) -> usize
        ensures number { result ≡ most_programmes self }
        ensures within { result ≤ MAX_PROGRAMMES }
    {
        match self {
            Limits::Standard => 2_000,
            Limits::National => NATIONAL_PROGRAMMES,
        }
    }

    /// The largest number of residents within these limits.
    pub fn residents(self) -> usize
        ensures number { result ≡ most_residents self }
        ensures within { result ≤ MAX_RESIDENTS }
    {
        match self {
            Limits::Standard => 20_000,
            Limits::National => NATIONAL_RESIDENTS,
        }
    }

    /// The largest number of acceptable pairs within these limits.
    pub fn pairs(self) -> usize
        ensures number { result ≡ most_pairs self }
        ensures within { result ≤ MAX_PAIRS }
    {
        match self {
            Limits::Standard => 200_000,
            Limits::National => 2_000_000,
        }
    }
}

/// Each constant of this module has the value that the definitions use.
pub fn law_limits()
    ensures programmes { MAX_PROGRAMMES ≡ 65536 }
    ensures residents { MAX_RESIDENTS ≡ 1000000 }
    ensures pairs { MAX_PAIRS ≡ 20000000 }
    ensures quota { MAX_QUOTA ≡ 10000 }
{}

/// The numbers of the standard limits.
pub fn law_standard_limits()
    ensures programmes { most_programmes Standard ≡ 2000 }
    ensures residents { most_residents Standard ≡ 20000 }
    ensures pairs { most_pairs Standard ≡ 200000 }
    ensures quota { MAX_QUOTA ≡ 10000 }
{}

/// The numbers of the national limits.
pub fn law_national_limits()
    ensures programmes { most_programmes National ≡ 10000 }
    ensures residents { most_residents National ≡ 100000 }
    ensures pairs { most_pairs National ≡ 2000000 }
    ensures quota { MAX_QUOTA ≡ 10000 }
{}
