//! The residents' choices, with guesses of their ranks on both sides.
use crate::rows::Rows;

/// For each resident a row of choices: the programmes on the resident's list, sorted by number. All else are guesses,
/// which may be wrong, so each is compared with a list before it is used.
#[derive(Debug, Drop)]
pub(crate) struct Choices {
    pub(crate) rows: Rows<u32>,
    /// For each choice, the programme's rank on the resident's list.
    pub(crate) resident_ranks: Vec<u32>,
    /// For each choice, the resident's rank on the programme's list.
    pub(crate) programme_ranks: Vec<u32>,
    /// For each item of the programmes' lists, the index of the choice of this programme by this resident.
    pub(crate) offers: Vec<u32>,
}
