//! The queues of desks that wait for room in a mailbox.
ghost use Rattle.std.specs.Prelude.{◌≡◌, ◌≢◌, ◌<◌, ◌++◌, ◌∷◌, [], ℕ, List, Option, None, Some, true, false, length, replicate, slice_set, MatchOption, IfOk};
ghost use Rattle.std.specs.Option.{ForSome};
ghost use Rattle.desk_scheduler.specs.Waits.{ended_at, joined_rows, left_rows, linked_at, linked_to, queue_of, was_called, without};

use std::alloc::{AllocError, Global};
use std::marker::Model;

/// For each mailbox, the queue of desks that wait for room in it; a desk waits after the full mailbox refused its
/// message. A mailbox has the number of its receiver's desk, and links to the first and the last waiting desk. A desk
/// has the number of the mailbox for which it waits, links to the desks before and behind it, and a flag whether it
/// was called. A desk waits for at most one mailbox. The number of waiting desks is stored, so that no queue is
/// looked up while no desk waits.
#[derive(Debug, Drop)]
pub struct WaitQueues {
    first_desks: Vec<Option<u32>>,
    last_desks: Vec<Option<u32>>,
    awaited_mailboxes: Vec<Option<u32>>,
    desks_before: Vec<Option<u32>>,
    desks_behind: Vec<Option<u32>>,
    called_desks: Vec<bool>,
    waiting_count: usize,
}

impl Model for WaitQueues {
    ghost use Rattle.desk_scheduler.specs.Waits.{Waits, AreQueues};

    ghost Value = { Waits };

    ghost view = { λ q. record {
      first = q.first_desks.items;
      last = q.last_desks.items;
      mailbox = q.awaited_mailboxes.items;
      before = q.desks_before.items;
      behind = q.desks_behind.items;
      called = q.called_desks.items;
    } };

    ghost invariant = { λ q. AreQueues (record {
      first = q.first_desks.items;
      last = q.last_desks.items;
      mailbox = q.awaited_mailboxes.items;
      before = q.desks_before.items;
      behind = q.desks_behind.items;
      called = q.called_desks.items;
    }) q.waiting_count };
}

impl WaitQueues {
    /// The queues for this number of desks, while no desk waits.
    pub fn with_desks(alloc: Global, desks: usize) -> Result<WaitQueues, AllocError>
        ensures none { IfOk result (λ q. (q.mailbox ≡ replicate desks None)
            × (q.called ≡ replicate desks false)) }
        ensures ends { IfOk result (λ q. (q.first ≡ replicate desks None)
            × (q.last ≡ replicate desks None)) }
        ensures queues { IfOk result (λ q. (m : ℕ) → queue_of q m ≡ []) }
    {
        Ok(WaitQueues {
            first_desks: vec![in alloc; None; desks]?,
            last_desks: vec![in alloc; None; desks]?,
            awaited_mailboxes: vec![in alloc; None; desks]?,
            desks_before: vec![in alloc; None; desks]?,
            desks_behind: vec![in alloc; None; desks]?,
            called_desks: vec![in alloc; false; desks]?,
            waiting_count: 0,
        })
    }

    /// Lets a desk wait for room in a mailbox, behind all desks that wait there, and takes it out of any other queue.
    /// If the desk already waits there, it keeps its place.
    pub fn join(&mut self, mailbox: u32, desk: u32)
        ensures waits { desk < length self.old.mailbox →
            linked_at self.new.mailbox desk ≡ Some mailbox }
        ensures others { (d : ℕ) → d ≢ desk →
            linked_at self.new.mailbox d ≡ linked_at self.old.mailbox d }
        ensures place { linked_at self.old.mailbox desk ≡ Some mailbox → self.new ≡ self.old }
        ensures last { desk < length self.old.mailbox →
            linked_at self.old.mailbox desk ≢ Some mailbox →
            mailbox < length self.old.last →
            linked_at self.new.last mailbox ≡ Some desk }
        ensures behind_all { desk < length self.old.mailbox →
            linked_at self.old.mailbox desk ≢ Some mailbox →
            mailbox < length self.old.last →
            queue_of self.new mailbox ≡ queue_of self.old mailbox ++ desk ∷ [] }
        ensures elsewhere { (m : ℕ) → desk < length self.old.mailbox → m ≢ mailbox →
            queue_of self.new m ≡ without desk (queue_of self.old m) }
        ensures called { self.new.called ≡ self.old.called }
    {
        if desk as usize >= self.awaited_mailboxes.len() {
            return;
        }
        if self.waits_for(desk, mailbox) {
            return;
        }
        self.leave(desk);
        self.join_behind(mailbox, desk);
    }

    // Whether a desk waits for room in this mailbox.
    fn waits_for(&self, desk: u32, mailbox: u32) -> bool
        ensures yes { result ≡ true → linked_at self.now.mailbox desk ≡ Some mailbox }
        ensures no { result ≡ false → linked_at self.now.mailbox desk ≢ Some mailbox }
    {
        match linked(&self.awaited_mailboxes, desk) {
            Some(awaited_mailbox) => awaited_mailbox == mailbox,
            None => false,
        }
    }

    // Puts a desk that waits for no mailbox at the end of this mailbox's queue.
    fn join_behind(&mut self, mailbox: u32, desk: u32)
        requires within { desk < length self.old.mailbox }
        requires waits_not { linked_at self.old.mailbox desk ≡ None }
        ensures rows { self.new ≡ joined_rows self.old mailbox desk }
        ensures behind_all { mailbox < length self.old.last →
            queue_of self.new mailbox ≡ queue_of self.old mailbox ++ desk ∷ [] }
        ensures elsewhere { (m : ℕ) → m ≢ mailbox → queue_of self.new m ≡ queue_of self.old m }
    {
        let last_desk = linked(&self.last_desks, mailbox);
        relink(
            &mut self.desks_behind,
            &mut self.first_desks,
            last_desk,
            mailbox,
            Some(desk),
        );
        link(&mut self.last_desks, mailbox, Some(desk));
        link(&mut self.desks_before, desk, last_desk);
        link(&mut self.desks_behind, desk, None);
        link(&mut self.awaited_mailboxes, desk, Some(mailbox));
        self.waiting_count += 1;
    }

    /// Takes a desk out of the queue in which it waits, if there is such a queue.
    #[inline(always)]
    pub fn leave(&mut self, desk: u32)
        ensures waits_not { linked_at self.new.mailbox desk ≡ None }
        ensures others { (d : ℕ) → d ≢ desk →
            linked_at self.new.mailbox d ≡ linked_at self.old.mailbox d }
        ensures desks { (length self.new.mailbox ≡ length self.old.mailbox)
            × (length self.new.last ≡ length self.old.last) }
        ensures queues { (m : ℕ) → queue_of self.new m ≡ without desk (queue_of self.old m) }
        ensures called { self.new.called ≡ self.old.called }
    {
        if self.waiting_count > 0 {
            self.leave_queue(desk);
        }
    }

    #[cold]
    fn leave_queue(&mut self, desk: u32)
        ensures waits_not { linked_at self.new.mailbox desk ≡ None }
        ensures others { (d : ℕ) → d ≢ desk →
            linked_at self.new.mailbox d ≡ linked_at self.old.mailbox d }
        ensures desks { (length self.new.mailbox ≡ length self.old.mailbox)
            × (length self.new.last ≡ length self.old.last) }
        ensures queues { (m : ℕ) → queue_of self.new m ≡ without desk (queue_of self.old m) }
        ensures called { self.new.called ≡ self.old.called }
    {
        let Some(mailbox) = linked(&self.awaited_mailboxes, desk) else {
            return;
        };
        self.unlink(mailbox, desk);
    }

    // Takes a desk out of this mailbox's queue, by linking the desks before and behind it.
    fn unlink(&mut self, mailbox: u32, desk: u32)
        requires waits { linked_at self.old.mailbox desk ≡ Some mailbox }
        ensures rows { self.new ≡ left_rows self.old mailbox desk }
        ensures queues { (m : ℕ) → queue_of self.new m ≡ without desk (queue_of self.old m) }
    {
        let desk_before = linked(&self.desks_before, desk);
        let desk_behind = linked(&self.desks_behind, desk);
        relink(
            &mut self.desks_behind,
            &mut self.first_desks,
            desk_before,
            mailbox,
            desk_behind,
        );
        relink(
            &mut self.desks_before,
            &mut self.last_desks,
            desk_behind,
            mailbox,
            desk_before,
        );
        link(&mut self.awaited_mailboxes, desk, None);
        self.waiting_count -= 1;
    }

    /// Calls the first desk that waits for room in a mailbox, if there is one, and takes it out of the queue.
    #[inline(always)]
    pub fn call_first(&mut self, mailbox: u32) -> Option<u32>
        ensures first { result ≡ linked_at self.old.first mailbox }
        ensures called { ForSome result (λ desk.
            self.new.called ≡ slice_set self.old.called desk true) }
        ensures waits_not { ForSome result (λ desk. linked_at self.new.mailbox desk ≡ None) }
        ensures queue { MatchOption result (queue_of self.old mailbox ≡ [])
            (λ desk. queue_of self.old mailbox ≡ desk ∷ queue_of self.new mailbox) }
        ensures elsewhere { (m : ℕ) → m ≢ mailbox → queue_of self.new m ≡ queue_of self.old m }
        ensures none { result ≡ None → self.new ≡ self.old }
    {
        if self.waiting_count == 0 {
            return None;
        }
        self.call_waiting(mailbox)
    }

    #[cold]
    fn call_waiting(&mut self, mailbox: u32) -> Option<u32>
        ensures first { result ≡ linked_at self.old.first mailbox }
        ensures called { ForSome result (λ desk.
            self.new.called ≡ slice_set self.old.called desk true) }
        ensures waits_not { ForSome result (λ desk. linked_at self.new.mailbox desk ≡ None) }
        ensures queue { MatchOption result (queue_of self.old mailbox ≡ [])
            (λ desk. queue_of self.old mailbox ≡ desk ∷ queue_of self.new mailbox) }
        ensures elsewhere { (m : ℕ) → m ≢ mailbox → queue_of self.new m ≡ queue_of self.old m }
        ensures none { result ≡ None → self.new ≡ self.old }
    {
        let Some(desk) = linked(&self.first_desks, mailbox) else {
            return None;
        };
        self.leave(desk);
        self.mark_called(desk, true);
        Some(desk)
    }

    // Notes whether a desk was called.
    #[inline(always)]
    fn mark_called(&mut self, desk: u32, called: bool)
        ensures { self.new ≡ record self.old { called = slice_set self.old.called desk called } }
    {
        mark(&mut self.called_desks, desk, called);
    }

    /// Notes that a worker has taken a desk; the desk then leaves its queue. Returns whether the desk was called
    /// since a worker last took it.
    #[inline(always)]
    pub fn comes(&mut self, desk: u32) -> bool
        ensures called { result ≡ was_called self.old.called desk }
        ensures once { self.new.called ≡ slice_set self.old.called desk false }
        ensures waits_not { linked_at self.new.mailbox desk ≡ None }
        ensures queues { (m : ℕ) → queue_of self.new m ≡ without desk (queue_of self.old m) }
    {
        self.leave(desk);
        let was_called = matches!(self.called_desks.get(desk as usize), Some(true));
        self.mark_called(desk, false);
        was_called
    }
}

// The desk or mailbox to which this number's link leads.
#[inline(always)]
fn linked(links: &Vec<Option<u32>>, number: u32) -> Option<u32>
    ensures { result ≡ linked_at links.now.items number }
{
    match links.get(number as usize) {
        Some(target) => *target,
        None => None,
    }
}

// Lets this number's link lead to `target`.
#[inline(always)]
fn link(links: &mut Vec<Option<u32>>, number: u32, target: Option<u32>)
    ensures { links.new.items ≡ slice_set links.old.items number target }
{
    if (number as usize) < links.len() {
        links[number as usize] = target;
    }
}

// Sets the link of `desk` to `target`. Without a `desk`, `target` becomes the first or the last desk of the mailbox's
// queue.
#[inline(always)]
fn relink(
    links: &mut Vec<Option<u32>>,
    queue_ends: &mut Vec<Option<u32>>,
    desk: Option<u32>,
    mailbox: u32,
    target: Option<u32>,
)
    ensures links { links.new.items ≡ linked_to links.old.items desk target }
    ensures ends { queue_ends.new.items ≡ ended_at queue_ends.old.items desk mailbox target }
{
    match desk {
        Some(number) => link(links, number, target),
        None => link(queue_ends, mailbox, target),
    }
}

// Sets this desk's flag.
#[inline(always)]
fn mark(flags: &mut Vec<bool>, desk: u32, flag: bool)
    ensures { flags.new.items ≡ slice_set flags.old.items desk flag }
{
    if (desk as usize) < flags.len() {
        flags[desk as usize] = flag;
    }
}
