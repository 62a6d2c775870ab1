//! What a match has written once its call has ended well.

ghost use Rattle.match_theorem.specs.Law.{MatchLaw, NationalLaw, ProgramLaw};

/// A match of a docket has written the sheet of the docket's result. If the journal is asked for, it follows the sheet.
pub fn law_match()
    ensures { MatchLaw }
{}

/// If the program's words ask for a match and its exit status is 0, the program has written the sheet of the docket's
/// only settled placement.
pub fn law_program()
    ensures { ProgramLaw }
{}

/// What `law_program` says, for the program with the national limits.
pub fn law_national_program()
    ensures { NationalLaw }
{}
