//! What a desk finds in its mailbox, and why an agent could not be made.

/// What a desk finds in its mailbox.
#[derive(Clone, Copy, Debug, PartialEq, Eq, Drop)]
pub enum Heard<M> {
    /// The oldest message of the mailbox. This message now stands in the agent's log.
    Got(M),
    /// No message waits in the mailbox.
    Nothing,
    /// No message waits, and the sending end is gone, so no message can come.
    Gone,
    /// The log has no room left, so nothing was taken from the mailbox.
    LogFull,
}

/// An agent could not be made, because there was no memory for its log. The mailbox's end comes back
/// unchanged.
#[derive(Debug, Drop)]
pub struct AgentRefused<T> {
    /// The mailbox's end that was given for the agent.
    pub end: T,
}
