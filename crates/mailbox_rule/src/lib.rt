//! Bounded mailboxes with this rule: the messages that were taken out of a mailbox are the first of those that were
//! put into it.
#![tactic(auto)]

mod ends;
mod fault;
mod lists;
mod rule;
mod ruled;

pub use ends::{PutEnd, PutReply, TakeEnd, TakeReply};
pub use fault::MailFault;
pub use lists::{ListPut, ListTake};
pub use ruled::{RuledPut, RuledTake, agree, mailbox};
