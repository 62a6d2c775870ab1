//! The result of a run.
use crate::mailboxes::Mailboxes;
use exchange_core::Event;
use match_agents::{ProgrammeAgent, ResidentAgent};
use match_model::Assignment;

/// How a run ended.
#[derive(Clone, Copy, Debug, PartialEq, Eq)]
pub enum Ending {
    /// The exchange was closed.
    Closed,
    /// The gate stopped the run.
    Stopped,
}

/// The ends of the mailboxes, and the agents of a run. Sending ends are in the order of the receivers' numbers, and
/// agents in that of their own numbers.
#[derive(Drop)]
pub struct Ends<M: Mailboxes> {
    /// For each resident, the sending end of the mailbox for the offers to the resident.
    pub offer_puts: Vec<M::OfferPut>,
    /// The agent of each resident.
    pub residents: Vec<ResidentAgent<M::OfferTake>>,
    /// For each programme, the sending end of the mailbox for the answers to the programme.
    pub answer_puts: Vec<M::AnswerPut>,
    /// The agent of each programme.
    pub programmes: Vec<ProgrammeAgent<M::AnswerTake>>,
}

/// The result of a run.
#[derive(Drop)]
pub struct Done<M: Mailboxes> {
    /// How the run ended.
    pub ending: Ending,
    /// All events, in the order in which workers entered them under the ledger's lock.
    pub journal: Vec<Event>,
    /// For each event, the number of the worker that entered it.
    pub who: Vec<u8>,
    /// The programme whose offer each resident holds after the journal.
    pub assignment: Assignment,
    /// For each worker, how many events it entered.
    pub entered: Vec<u64>,
    /// The ends of the mailboxes, and the agents.
    pub ends: Ends<M>,
}
