//! The ranks of a run's threads: a thread takes a lock only with a rank for this kind of lock.
ghost use Rattle.std.specs.Prelude.{◌≡◌, ◌≢◌, ◌+◌, ◌*◌, IfSome, IfNone};

use crate::workers::WorkersIdentity;
use std::marker::PhantomData;
use std::sync::ledger::{Blank, Ledger, Share};

/// Into how many parts the ledger of ranks is cut: two for each of 64 threads.
pub const RANK_PARTS: u64 = 128;

/// The ledger of the ranks of a run's threads. Each part of the ledger is one rank of one thread.
pub struct RankLedger<J: WorkersIdentity>(PhantomData<J>);

impl<J: WorkersIdentity> Ledger for RankLedger<J> {
    ghost name = { J.rank_ledger };

    ghost parts = { 128 };
}

/// The ranks that no thread has yet, two for each thread. Only the thread that starts the workers has this value, so no
/// worker gets a second pair of ranks.
#[derive(Drop)]
pub struct Ranks<J: WorkersIdentity> {
    threads_left: u64,
    share: Share<RankLedger<J>>,
    ghost two_each: { share.parts ≡ 2 * threads_left },
    ghost amount: { share.amount ≡ 0 },
}

impl<J: WorkersIdentity> Ranks<J> {
    /// All ranks of a run.
    pub fn all(blank: Blank) -> Ranks<J>
        requires name { blank.name ≡ J.rank_ledger }
        requires parts { blank.parts ≡ 128 }
    {
        let (_book, share) = blank.open::<RankLedger<J>>();
        Ranks {
            threads_left: RANK_PARTS / 2,
            share,
        }
    }

    /// The ranks of one more thread: two parts of the ledger. The result is none if 64 threads have their ranks
    /// already.
    pub fn of_thread(&mut self) -> Option<Share<RankLedger<J>>>
        ensures two { IfSome result (λ share. (share.parts ≡ 2) × (share.amount ≡ 0)) }
        ensures one { IfSome result (λ _. self.new.threads_left + 1 ≡ self.old.threads_left) }
        ensures none { IfNone result ((self.old.threads_left ≡ 0) × (self.new ≡ self.old)) }
    {
        if self.threads_left == 0 {
            return None;
        }
        Some(self.cut_pair())
    }

    // Cuts two parts for one more thread.
    fn cut_pair(&mut self) -> Share<RankLedger<J>>
        requires { self.old.threads_left ≢ 0 }
        ensures two { (result.parts ≡ 2) × (result.amount ≡ 0) }
        ensures one { self.new.threads_left + 1 ≡ self.old.threads_left }
    {
        let Ranks {
            threads_left,
            share,
        } = self;
        *threads_left -= 1;
        share.split_off(2, 0)
    }
}
