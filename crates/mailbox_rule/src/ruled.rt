//! A mailbox is a bounded channel under the rule of order, with one sending end and one receiving end.
ghost use Rattle.std.specs.Prelude.{◌≡◌, ◌≢◌, ◌≤◌, ◌<◌, List, [], ◌∷◌, ◌++◌, length, Err, IfOk, IfErr};
ghost use Rattle.mailbox_rule.specs.Replies.{MatchPut, MatchTake};

use crate::ends::{PutEnd, PutReply, TakeEnd, TakeReply};
use crate::fault::MailFault;
use crate::rule::{InOrder, Known, Puts, Sides, Takes, Whole};
use crossbeam_channel::{
    Pass, RuledReceiver, RuledSender, TryRecvError, TrySendError, bounded_with,
};
use std::alloc::Global;
use std::marker::{Brand, Model};
use std::sync::Wait;

/// The only sending end of a mailbox. This end cannot be cloned.
#[derive(Drop)]
pub struct RuledPut<M: Copy, R: Wait + Copy> {
    sender: RuledSender<M, Known<M>, InOrder>,
    pass: Pass<M, Known<M>>,
    rt: R,
}

impl<M: Copy, R: Wait + Copy> Model for RuledPut<M, R> {
    ghost use Rattle.std.specs.Prelude.{◌≡◌, true};
    ghost use Rattle.crossbeam_channel.specs.Claims.{IsSeatAt};
    ghost use Rattle.crossbeam_channel.specs.Ends.{sends_on, ruled_capacity};
    ghost use Rattle.mailbox_rule.specs.Mail.{PutSide, mailbox_of, hand_of};

    ghost Value = { PutSide M };

    ghost view = { λ e. record {
      mailbox = mailbox_of e.pass;
      room = (hand_of e.pass).room;
      puts = (hand_of e.pass).puts;
    } };

    ghost invariant = { λ e. IsSeatAt (sends_on e.sender) e.pass × ((hand_of e.pass).may_put ≡ true)
        × ((hand_of e.pass).room ≡ ruled_capacity (sends_on e.sender)) };
}

/// The only receiving end of a mailbox. This end cannot be cloned.
#[derive(Drop)]
pub struct RuledTake<M: Copy, R: Wait + Copy> {
    receiver: RuledReceiver<M, Known<M>, InOrder>,
    pass: Pass<M, Known<M>>,
    rt: R,
}

impl<M: Copy, R: Wait + Copy> Model for RuledTake<M, R> {
    ghost use Rattle.std.specs.Prelude.{◌≡◌, true};
    ghost use Rattle.crossbeam_channel.specs.Claims.{IsSeatAt};
    ghost use Rattle.crossbeam_channel.specs.Ends.{receives_on};
    ghost use Rattle.mailbox_rule.specs.Mail.{TakeSide, mailbox_of, hand_of};

    ghost Value = { TakeSide M };

    ghost view = { λ e. record { mailbox = mailbox_of e.pass; taken = (hand_of e.pass).taken } };

    ghost invariant = { λ e. IsSeatAt (receives_on e.receiver) e.pass
        × ((hand_of e.pass).may_take ≡ true) };
}

/// A mailbox in which at most `capacity` messages wait.
pub fn mailbox<M: Copy + Eq, R: Wait + Copy>(
    alloc: Global,
    rt: R,
    capacity: u32,
) -> Result<(RuledPut<M, R>, RuledTake<M, R>), MailFault>
    ensures none { capacity ≡ 0 → result ≡ Err MailFault.NoCapacity }
    ensures memory { capacity ≢ 0 → IfErr result (λ fault. fault ≡ MailFault.Memory) }
    ensures made { IfOk result (λ ends. (ends.0.mailbox ≡ ends.1.mailbox)
        × (ends.0.room ≡ capacity) × (ends.0.puts ≡ []) × (ends.1.taken ≡ [])) }
{
    if capacity == 0 {
        return Err(MailFault::NoCapacity);
    }
    let (sender, receiver, mut pass) = bounded_with(alloc, capacity as usize)?;
    let take_pass = sender.another::<Brand>(&mut pass);
    let put = RuledPut { sender, pass, rt };
    let take = RuledTake {
        receiver,
        pass: take_pass,
        rt,
    };
    Ok((put, take))
}

impl<M: Copy, R: Wait + Copy> PutEnd<M> for RuledPut<M, R> {
    ghost puts = { λ end. end.puts };

    // A put finds no room only if at least as many messages were put so far as the capacity is.
    ghost may_fill = { λ end. end.room ≤ length end.puts };

    ghost may_go = { λ _. Unit {0} };

    #[inline(always)]
    fn put(&mut self, message: M) -> PutReply<M>
        ensures { MatchPut result
            (self.new ≡ record self.old { puts = self.old.puts ++ message ∷ [] })
            (λ returned. (returned ≡ message) × (self.new ≡ self.old)
            × (self.old.room ≤ length self.old.puts))
            (λ returned. (returned ≡ message) × (self.new ≡ self.old)) }
    {
        let Self { sender, pass, rt } = self;
        match sender.try_send_as::<Puts, R>(rt, pass, message) {
            Ok(()) => PutReply::Done,
            Err(TrySendError::Full(returned)) => PutReply::Full(returned),
            Err(TrySendError::Disconnected(returned)) => PutReply::Gone(returned),
            Err(TrySendError::OutOfMemory(_)) => unreachable!(),
        }
    }
}

impl<M: Copy, R: Wait + Copy> TakeEnd<M> for RuledTake<M, R> {
    ghost taken = { λ end. end.taken };

    ghost may_lack = { λ _. Unit {0} };

    ghost may_go = { λ _. Unit {0} };

    #[inline(always)]
    fn take(&mut self) -> TakeReply<M>
        ensures { MatchTake result
            (λ message. self.new ≡ record self.old { taken = self.old.taken ++ message ∷ [] })
            (self.new ≡ self.old)
            (self.new ≡ self.old) }
    {
        let Self { receiver, pass, rt } = self;
        match receiver.try_recv_as::<Takes, R>(rt, pass) {
            Ok(message) => TakeReply::Got(message),
            Err(TryRecvError::Empty) => TakeReply::Nothing,
            Err(TryRecvError::Disconnected) => TakeReply::Gone,
        }
    }
}

/// Shows that the messages taken are the first of the messages put, and returns both ends.
pub fn agree<M: Copy, R: Wait + Copy>(
    put: RuledPut<M, R>,
    take: RuledTake<M, R>,
) -> (RuledPut<M, R>, RuledTake<M, R>)
    requires { put.mailbox ≡ take.mailbox }
    ensures prefix { (rest : List M) × (take.taken ++ rest ≡ put.puts) × (length rest ≤ put.room) }
    ensures same { (result.0 ≡ put) × (result.1 ≡ take) }
{
    let RuledPut {
        sender,
        mut pass,
        rt,
    } = put;
    let RuledTake {
        receiver,
        pass: take_pass,
        rt: take_rt,
    } = take;
    sender.absorb::<Sides>(&mut pass, take_pass);
    sender.learn_as::<Whole>(&mut pass);
    let take_pass = sender.another::<Sides>(&mut pass);
    let put = RuledPut { sender, pass, rt };
    let take = RuledTake {
        receiver,
        pass: take_pass,
        rt: take_rt,
    };
    (put, take)
}
