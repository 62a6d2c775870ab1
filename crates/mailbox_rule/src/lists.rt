//! Ends that are plain lists in memory. In tests these lists stand in for the ends of a mailbox.
ghost use Rattle.std.specs.Prelude.{◌≡◌, ◌<◌, List, [], ◌∷◌, ◌++◌, length, IfOk, IfErr};
ghost use Rattle.mailbox_rule.specs.Replies.{MatchPut, MatchTake};

use crate::ends::{PutEnd, PutReply, TakeEnd, TakeReply};
use crate::fault::MailFault;
use std::alloc::Global;
use std::marker::Model;

/// A sending end that accepts messages until its room is full, and then answers `Full`. It never answers `Gone`.
#[derive(Drop)]
pub struct ListPut<M> {
    messages: Vec<M>,
    room: usize,
}

impl<M> Model for ListPut<M> {
    ghost use Rattle.std.specs.Prelude.{◌≤◌, vec_len, vec_capacity};
    ghost use Rattle.mailbox_rule.specs.Lists.{PutList};

    ghost Value = { PutList M };

    ghost view = { λ e. record { room = e.room; puts = e.messages.items } };

    ghost invariant = { λ e. (vec_len e.messages ≤ e.room) × (e.room ≤ vec_capacity e.messages) };
}

impl<M> ListPut<M> {
    /// A sending end with room for `capacity` messages, where `capacity` may be 0. The only fault is `Memory`.
    pub fn with_room(alloc: Global, capacity: u32) -> Result<ListPut<M>, MailFault>
        ensures made { IfOk result (λ end. (end.room ≡ capacity) × (end.puts ≡ [])) }
        ensures memory { IfErr result (λ fault. fault ≡ MailFault.Memory) }
    {
        let room = capacity as usize;
        let messages = Vec::with_capacity(alloc, room)?;
        Ok(ListPut { messages, room })
    }
}

impl<M> PutEnd<M> for ListPut<M> {
    ghost puts = { λ end. end.puts };

    ghost may_fill = { λ end. length end.puts ≡ end.room };

    ghost may_go = { λ _. ⊥ };

    fn put(&mut self, message: M) -> PutReply<M>
        ensures { MatchPut result ((length self.old.puts < self.old.room)
            × (self.new ≡ record self.old { puts = self.old.puts ++ message ∷ [] })) (λ returned.
            (returned ≡ message)
            × (self.new ≡ self.old) × (length self.old.puts ≡ self.old.room)) (λ _. ⊥) }
    {
        if self.messages.len() >= self.room {
            return PutReply::Full(message);
        }
        self.messages.push_reserved(message);
        PutReply::Done
    }
}

/// A receiving end that returns the messages of a list in order, and then answers `Nothing`. It never answers `Gone`.
#[derive(Drop)]
pub struct ListTake<M: Copy> {
    messages: Vec<M>,
    next_index: usize,
}

impl<M: Copy> Model for ListTake<M> {
    ghost use Rattle.std.specs.Prelude.{◌≤◌, vec_len, take, drop};
    ghost use Rattle.mailbox_rule.specs.Lists.{TakeList};

    ghost Value = { TakeList M };

    ghost view = { λ e. record {
      taken = take e.next_index e.messages.items;
      left = drop e.next_index e.messages.items;
    } };

    ghost invariant = { λ e. e.next_index ≤ vec_len e.messages };
}

impl<M: Copy> ListTake<M> {
    /// A receiving end that returns these messages.
    pub fn of(messages: Vec<M>) -> ListTake<M>
        ensures { (result.left ≡ messages.items) × (result.taken ≡ []) }
    {
        ListTake {
            messages,
            next_index: 0,
        }
    }
}

impl<M: Copy> TakeEnd<M> for ListTake<M> {
    ghost taken = { λ end. end.taken };

    ghost may_lack = { λ end. end.left ≡ [] };

    ghost may_go = { λ _. ⊥ };

    fn take(&mut self) -> TakeReply<M>
        ensures { MatchTake result
            (λ message. (self.old.left ≡ message ∷ self.new.left)
            × (self.new.taken ≡ self.old.taken ++ message ∷ []))
            ((self.old.left ≡ []) × (self.new ≡ self.old))
            ⊥ }
    {
        if self.next_index >= self.messages.len() {
            return TakeReply::Nothing;
        }
        let message = self.messages[self.next_index];
        self.next_index += 1;
        TakeReply::Got(message)
    }
}
