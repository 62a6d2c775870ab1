//! The agents of residents and programmes. An agent has a log of what its desk took out of the mailbox, and the answers
//! or offers that the desk still has to send.
#![tactic(auto)]

mod heard;
mod programme;
mod resident;

pub use heard::{AgentRefused, Heard};
pub use programme::ProgrammeAgent;
pub use resident::ResidentAgent;
