//! The outcome of an audit or a replay.

/// What an audit or a replay found.
#[derive(Clone, Copy, Debug, PartialEq, Eq)]
pub enum Status {
    /// The sheet is stable.
    Stable,
    /// The sheet isn't stable.
    Unstable,
    /// The journal is a good exchange, and leads to the sheet if the docket has a sheet.
    ReplayGood,
    /// The journal is not a good exchange, or does not lead to the sheet.
    ReplayBad,
}
