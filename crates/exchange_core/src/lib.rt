//! The pure core of the exchange of offers: which event may follow the earlier events, and what a list of events
//! leaves.
//!
//! Contracts say nothing about the text of a `CoreFault`. A test compares this text.
#![tactic(auto)]

mod at_rest;
mod changes;
mod counts;
mod event;
mod exchange;
mod note;
mod part;
mod programme_row;
mod resident_row;
mod some_event;

pub use event::{AnswerKind, Capacity, Desk, Event, Pending, Refused};
pub use exchange::{Core, CoreFault};
pub use note::{AnswerNote, MailLeft, OfferNote};
