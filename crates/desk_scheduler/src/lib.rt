//! Which desks workers have, which desks may have work, and which desks wait for room. The crate has no thread and no
//! lock.
#![tactic(auto)]

mod ranks;
mod scheduler;
mod shift;
mod side;
mod turn;
mod wait_queues;
mod wake;
mod woken;
mod workers;

pub use ranks::{RANK_PARTS, RankLedger, Ranks};
pub use scheduler::{Next, Scheduler};
pub use shift::{Hand, Shift, TurnOf};
pub use turn::Turn;
pub use wait_queues::WaitQueues;
pub use wake::Wake;
pub use woken::Woken;
pub use workers::{
    Crew, Holding, Looking, Resting, WORKER_PARTS, WorkerBlanks, Workers, WorkersIdentity,
};
