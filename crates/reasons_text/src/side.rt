//! The two sides of a market, and the docket's names of the members on each side.
ghost use Rattle.std.specs.Prelude.{◌≡◌};
ghost use Rattle.docket.specs.Texts as texts;
ghost use Rattle.reasons_text.specs.Naming.{docket_name as name_in, member_count as members_of};

use docket::Docket;
use match_model::{ProgrammeNo, ResidentNo};

/// A side of a market.
#[derive(Clone, Copy, Debug, PartialEq, Eq)]
pub(crate) enum Side {
    /// The programmes.
    Programmes,
    /// The residents.
    Residents,
}

/// How many members a side has in the docket.
pub(crate) fn member_count(docket: &Docket, side: Side) -> u32
    ensures { result ≡ members_of docket.now side }
{
    let inst = docket.instance();
    match side {
        Side::Programmes => inst.programmes(),
        Side::Residents => inst.residents(),
    }
}

// The docket's name of a resident, or an empty name if no resident has this number.
#[tactic(auto, using(crate::proofs::NobodyFacts::resident_nobody))]
fn resident_name(docket: &Docket, resident: ResidentNo) -> &str
    ensures { result.now ≡ texts.resident_name docket.now resident }
{
    if resident.0 < docket.instance().residents() {
        docket.resident_name(resident)
    } else {
        ""
    }
}

// The docket's name of a programme, or an empty name if no programme has this number.
#[tactic(auto, using(crate::proofs::NobodyFacts::programme_nobody))]
fn programme_name(docket: &Docket, programme: ProgrammeNo) -> &str
    ensures { result.now ≡ texts.programme_name docket.now programme }
{
    if programme.0 < docket.instance().programmes() {
        docket.programme_name(programme)
    } else {
        ""
    }
}

/// The docket's name of a member, or an empty name if no member has this number.
pub(crate) fn docket_name(docket: &Docket, side: Side, number: u32) -> &str
    ensures { result.now ≡ name_in docket.now side number }
{
    match side {
        Side::Programmes => programme_name(docket, ProgrammeNo(number)),
        Side::Residents => resident_name(docket, ResidentNo(number)),
    }
}
