//! The two ends of a mailbox, in the form in which the other crates use them.
ghost use Rattle.std.specs.Prelude.{◌≡◌, List, [], ◌∷◌, ◌++◌};
ghost use Rattle.mailbox_rule.specs.Replies.{MatchPut, MatchTake};

/// The answer of a call that puts a message. `Full` and `Gone` return the message.
#[derive(Clone, Copy, PartialEq, Eq, Debug, Drop)]
pub enum PutReply<M> {
    /// The message is in the mailbox.
    Done,
    /// The mailbox has no room for the message.
    Full(M),
    /// The mailbox's receiving end is gone, so nobody can take the message.
    Gone(M),
}

/// The answer of a call that takes a message.
#[derive(Clone, Copy, PartialEq, Eq, Debug, Drop)]
pub enum TakeReply<M> {
    /// The oldest message of the mailbox. This message is no longer in the mailbox.
    Got(M),
    /// No message waits in the mailbox.
    Nothing,
    /// No message waits, and the sending end is gone, so no message can come.
    Gone,
}

/// The sending end of a mailbox.
pub trait PutEnd<M> {
    // The messages that were put into this end, first to last.
    ghost puts: { Self → List M };

    // What is true if a put finds no room.
    ghost may_fill: { Self → Type 0 };

    // What is true if a put finds that the receiving end is gone.
    ghost may_go: { Self → Type 0 };

    /// Puts a message into the mailbox, or returns the message and changes nothing.
    fn put(&mut self, message: M) -> PutReply<M>
        ensures { MatchPut result
            (puts self.new ≡ puts self.old ++ message ∷ [])
            (λ returned. (returned ≡ message) × (self.new ≡ self.old) × may_fill self.old)
            (λ returned. (returned ≡ message) × (self.new ≡ self.old) × may_go self.old) };
}

/// The receiving end of a mailbox.
pub trait TakeEnd<M> {
    // The messages that were taken from this end, first to last.
    ghost taken: { Self → List M };

    // What is true if a take finds no message.
    ghost may_lack: { Self → Type 0 };

    // What is true if a take finds that the sending end is gone.
    ghost may_go: { Self → Type 0 };

    /// Takes the oldest message from the mailbox, or changes nothing.
    fn take(&mut self) -> TakeReply<M>
        ensures { MatchTake result
            (λ message. taken self.new ≡ taken self.old ++ message ∷ [])
            ((self.new ≡ self.old) × may_lack self.old)
            ((self.new ≡ self.old) × may_go self.old) };
}
