//! The answer to a worker that looks for a desk.

/// The answer to a worker that looks for a desk: either a hand with a desk, or the worker's own token back.
#[derive(Drop)]
pub enum Turn<H, L> {
    /// The worker has a desk now.
    Desk(H),
    /// No desk is listed, and the worker goes on looking.
    Nothing(L),
    /// The run ends.
    Ended(L),
}
