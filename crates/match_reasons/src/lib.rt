//! Why a resident isn't matched with a programme. The answer uses only the instance, the two members' lists as they
//! were written, and the placement.
#![tactic(auto)]

mod asking;
mod laws;
mod listed;
mod reason;
mod taken;

pub use asking::why;
pub use laws::{law_honest, law_pairs, law_room};
pub use listed::Listed;
pub use reason::Why;
pub use taken::{Taken, all_places_taken, places_taken};
