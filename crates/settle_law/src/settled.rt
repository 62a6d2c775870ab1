//! The placement that an exchange leads to: no resident owes a rejection of an achievable programme, and the
//! placement of a closed exchange is settled.

ghost use Rattle.settle_law.specs.SettledLaws.{NeverRejectsLaw, SettledLaw, SameResidentsLaw, OneSettledLaw, HasSettledLaw};

/// In a legal list of events, a resident never owes a rejection to a programme that is achievable for this resident.
pub fn law_never_rejects()
    ensures { NeverRejectsLaw }
{}

/// A closed legal list of events leads to a stable and settled placement: each programme has its best achievable
/// residents, up to its quota, and each resident has the last of the achievable programmes on the resident's list.
pub fn law_settled()
    ensures { SettledLaw }
{}

/// Every stable assignment matches the same residents as any closed legal list of events does, and gives each
/// programme the same number of residents.
pub fn law_same_residents()
    ensures { SameResidentsLaw }
{}

/// An instance has at most one settled assignment.
pub fn law_one_settled()
    ensures { OneSettledLaw }
{}

/// Every instance has a settled assignment that is stable.
pub fn law_has_settled()
    ensures { HasSettledLaw }
{}
