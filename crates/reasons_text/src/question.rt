//! The question that a command line asks.

/// Whom the question is about.
#[derive(Clone, Copy, Debug, PartialEq, Eq)]
pub enum Asked<'a> {
    /// Every resident, each with the programmes on the resident's R record.
    AllResidents,
    /// The resident with this name, and each programme on the resident's R record.
    Resident(&'a str),
    /// The resident with the first name, and the programme with the second name.
    Pair(&'a str, &'a str),
}

/// A question, and how and from what it is answered.
#[derive(Clone, Copy, Debug, PartialEq, Eq)]
pub struct Question<'a> {
    /// Whom the question is about.
    pub asked: Asked<'a>,
    /// Whether ranks on programmes' lists are left out.
    pub without_ranks: bool,
    /// The file with the members' real names, if there is one.
    pub key: Option<&'a str>,
    /// The file with the sheet, if the sheet is not in the docket.
    pub sheet: Option<&'a str>,
}
