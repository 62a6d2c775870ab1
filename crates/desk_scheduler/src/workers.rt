//! The workers of a run, counted under the scheduler's lock. Each worker has a desk, looks for a desk, or rests.
ghost use Rattle.std.specs.Prelude.{◌≡◌, ◌≢◌, ◌⊎◌, ◌+◌, ◌-◌, ◌<◌, ◌≤◌, ℕ, IfOk, IfErr, IfSome, IfNone};

use crate::ranks::{RANK_PARTS, Ranks};
use std::marker::{Brand, PhantomData};
use std::sync::ledger::{Blank, Book, Ledger, Share};

/// The greatest number of workers that can begin.
const MOST_WORKERS: u64 = 63;

/// Into how many parts each of the three ledgers of counts is cut.
pub const WORKER_PARTS: u64 = 64;

/// Names the four ledgers of a run: three count the workers, and the fourth has the ranks of the threads. Each run
/// has four ledgers of its own.
pub trait WorkersIdentity {
    ghost holding_ledger: { ℕ };

    ghost looking_ledger: { ℕ };

    ghost resting_ledger: { ℕ };

    ghost rank_ledger: { ℕ };
}

impl WorkersIdentity for Brand {
    ghost holding_ledger = { 0 };

    ghost looking_ledger = { 0 };

    ghost resting_ledger = { 0 };

    ghost rank_ledger = { 0 };
}

/// Four ledgers without a name, for the counts of one run's workers and the ranks of its threads.
#[derive(Drop)]
pub struct WorkerBlanks {
    /// The ledger for the workers that have a desk.
    pub holding: Blank,
    /// The ledger for the workers that look for a desk.
    pub looking: Blank,
    /// The ledger for the workers that rest.
    pub resting: Blank,
    /// The ledger for the ranks of the threads.
    pub ranks: Blank,
    pub ghost parts: { (holding.parts ≡ 64) × (looking.parts ≡ 64) × (resting.parts ≡ 64) },
    pub ghost rank_parts: { ranks.parts ≡ 128 },
}

impl WorkerBlanks {
    /// Four ledgers that are not open yet.
    pub fn new() -> WorkerBlanks {
        WorkerBlanks {
            holding: Blank::new(WORKER_PARTS),
            looking: Blank::new(WORKER_PARTS),
            resting: Blank::new(WORKER_PARTS),
            ranks: Blank::new(RANK_PARTS),
        }
    }

    /// Opens the four ledgers of the run that the type names, before any worker begins. The result is the workers'
    /// counts, what workers need to begin, and the ranks of all threads.
    pub fn open<J: WorkersIdentity>(self) -> (Workers<J>, Crew<J>, Ranks<J>)
        requires holding { self.holding.name ≡ J.holding_ledger }
        requires looking { self.looking.name ≡ J.looking_ledger }
        requires resting { self.resting.name ≡ J.resting_ledger }
        requires ranks { self.ranks.name ≡ J.rank_ledger }
        ensures { (result.0.begun ≡ 0) × (result.0.without_desk ≡ 0) }
    {
        let WorkerBlanks {
            holding,
            looking,
            resting,
            ranks,
        } = self;
        let (workers, crew) = Workers::none(holding, looking, resting);
        (workers, crew, Ranks::all(ranks))
    }
}

/// The ledger that counts the workers that have a desk.
pub struct HoldingLedger<J: WorkersIdentity>(PhantomData<J>);

/// The ledger that counts the workers that look for a desk.
pub struct LookingLedger<J: WorkersIdentity>(PhantomData<J>);

/// The ledger that counts the workers that rest.
pub struct RestingLedger<J: WorkersIdentity>(PhantomData<J>);

impl<J: WorkersIdentity> Ledger for HoldingLedger<J> {
    ghost name = { J.holding_ledger };

    ghost parts = { 64 };
}

impl<J: WorkersIdentity> Ledger for LookingLedger<J> {
    ghost name = { J.looking_ledger };

    ghost parts = { 64 };
}

impl<J: WorkersIdentity> Ledger for RestingLedger<J> {
    ghost name = { J.resting_ledger };

    ghost parts = { 64 };
}

/// The token of a worker that has a desk. It takes no bytes. Only a worker that looked for a desk and got one has
/// this token.
#[derive(Drop)]
pub struct Holding<J: WorkersIdentity> {
    holding_share: Share<HoldingLedger<J>>,
    looking_share: Share<LookingLedger<J>>,
    resting_share: Share<RestingLedger<J>>,
    ghost parts: { (holding_share.parts ≡ 1)
        × (looking_share.parts ≡ 1) × (resting_share.parts ≡ 1) },
    ghost amounts: { (holding_share.amount ≡ 1)
        × (looking_share.amount ≡ 0) × (resting_share.amount ≡ 0) },
}

/// The token of a worker that looks for a desk.
#[derive(Drop)]
pub struct Looking<J: WorkersIdentity> {
    holding_share: Share<HoldingLedger<J>>,
    looking_share: Share<LookingLedger<J>>,
    resting_share: Share<RestingLedger<J>>,
    ghost parts: { (holding_share.parts ≡ 1)
        × (looking_share.parts ≡ 1) × (resting_share.parts ≡ 1) },
    ghost amounts: { (holding_share.amount ≡ 0)
        × (looking_share.amount ≡ 1) × (resting_share.amount ≡ 0) },
}

/// The token of a worker that rests.
#[derive(Drop)]
pub struct Resting<J: WorkersIdentity> {
    holding_share: Share<HoldingLedger<J>>,
    looking_share: Share<LookingLedger<J>>,
    resting_share: Share<RestingLedger<J>>,
    ghost parts: { (holding_share.parts ≡ 1)
        × (looking_share.parts ≡ 1) × (resting_share.parts ≡ 1) },
    ghost amounts: { (holding_share.amount ≡ 0)
        × (looking_share.amount ≡ 0) × (resting_share.amount ≡ 1) },
}

/// The workers that have not begun: their parts of the three ledgers. Only the thread that starts the workers has this
/// value, so a worker that has begun can't begin again.
#[derive(Drop)]
pub struct Crew<J: WorkersIdentity> {
    workers_left: u64,
    holding_share: Share<HoldingLedger<J>>,
    looking_share: Share<LookingLedger<J>>,
    resting_share: Share<RestingLedger<J>>,
    ghost parts: { (holding_share.parts ≡ workers_left)
        × (looking_share.parts ≡ workers_left) × (resting_share.parts ≡ workers_left) },
    ghost amounts: { (holding_share.amount ≡ 0)
        × (looking_share.amount ≡ 0) × (resting_share.amount ≡ 0) },
}

/// How many workers have begun, and how many of them have no desk. Three ledgers count the workers that have a desk,
/// that look for a desk, and that rest. Each worker's token is the worker's part of these ledgers. At no time do all
/// workers rest.
#[derive(Drop)]
pub struct Workers<J: WorkersIdentity> {
    begun: u64,
    without_desk: u64,
    holding: Book<HoldingLedger<J>>,
    looking: Book<LookingLedger<J>>,
    resting: Book<RestingLedger<J>>,
    ghost all: { holding.total + looking.total + resting.total ≡ begun },
    ghost without_are: { looking.total + resting.total ≡ without_desk },
    ghost awake: { resting.total ≤ begun - 1 },
    ghost most: { begun ≤ 63 },
}

impl<J: WorkersIdentity> Workers<J> {
    /// The counts before any worker has begun, and the crew of all workers.
    pub fn none(holding: Blank, looking: Blank, resting: Blank) -> (Workers<J>, Crew<J>)
        requires names { (holding.name ≡ J.holding_ledger)
            × (looking.name ≡ J.looking_ledger) × (resting.name ≡ J.resting_ledger) }
        requires parts { (holding.parts ≡ 64) × (looking.parts ≡ 64) × (resting.parts ≡ 64) }
        ensures { (result.0.begun ≡ 0) × (result.0.without_desk ≡ 0) }
    {
        let (holding, holding_share) = holding.open::<HoldingLedger<J>>();
        let (looking, looking_share) = looking.open::<LookingLedger<J>>();
        let (resting, resting_share) = resting.open::<RestingLedger<J>>();
        let workers = Workers {
            begun: 0,
            without_desk: 0,
            holding,
            looking,
            resting,
        };
        let crew = Crew {
            workers_left: WORKER_PARTS,
            holding_share,
            looking_share,
            resting_share,
        };
        (workers, crew)
    }

    /// Counts one more worker of the crew as begun; it looks for a desk. The result is none if 63 workers have begun,
    /// or if the crew has no worker left.
    pub fn begins(&mut self, crew: &mut Crew<J>) -> Option<Looking<J>>
        ensures begun { IfSome result (λ _. self.new.begun ≡ self.old.begun + 1) }
        ensures crew { IfSome result (λ _. crew.new.workers_left + 1 ≡ crew.old.workers_left) }
        ensures looks { IfSome result (λ _. self.new.looking.total ≡ self.old.looking.total + 1) }
        ensures others { (self.new.holding.total ≡ self.old.holding.total)
            × (self.new.resting.total ≡ self.old.resting.total) }
        ensures none { IfNone result (((63 ≤ self.old.begun) ⊎ (crew.old.workers_left ≡ 0))
            × (self.new ≡ self.old) × (crew.new ≡ crew.old)) }
    {
        if self.begun >= MOST_WORKERS || crew.workers_left == 0 {
            return None;
        }
        Some(self.cut_shares(crew))
    }

    // Cuts a part of each ledger for one more worker of the crew, which looks for a desk.
    fn cut_shares(&mut self, crew: &mut Crew<J>) -> Looking<J>
        requires begun { self.old.begun < 63 }
        requires left { crew.old.workers_left ≢ 0 }
        ensures begun { self.new.begun ≡ self.old.begun + 1 }
        ensures crew { crew.new.workers_left + 1 ≡ crew.old.workers_left }
        ensures looks { self.new.looking.total ≡ self.old.looking.total + 1 }
        ensures others { (self.new.holding.total ≡ self.old.holding.total)
            × (self.new.resting.total ≡ self.old.resting.total) }
    {
        let Workers {
            begun,
            without_desk,
            looking,
            ..
        } = self;
        let Crew {
            workers_left,
            holding_share,
            looking_share,
            resting_share,
        } = crew;
        *workers_left -= 1;
        let worker_holding = holding_share.split_off(1, 0);
        let mut worker_looking = looking_share.split_off(1, 0);
        let worker_resting = resting_share.split_off(1, 0);
        looking.add(&mut worker_looking, 1);
        *begun += 1;
        *without_desk += 1;
        Looking {
            holding_share: worker_holding,
            looking_share: worker_looking,
            resting_share: worker_resting,
        }
    }

    /// Notes that a worker that looks for a desk gets one.
    pub fn takes(&mut self, token: Looking<J>) -> Holding<J>
        ensures holding { self.new.holding.total ≡ self.old.holding.total + 1 }
        ensures looking { self.new.looking.total + 1 ≡ self.old.looking.total }
        ensures rest { (self.new.resting.total ≡ self.old.resting.total)
            × (self.new.begun ≡ self.old.begun) }
    {
        let Workers {
            without_desk,
            holding,
            looking,
            ..
        } = self;
        let Looking {
            mut holding_share,
            mut looking_share,
            resting_share,
        } = token;
        looking.audit(&mut looking_share);
        looking.sub(&mut looking_share, 1);
        holding.add(&mut holding_share, 1);
        *without_desk -= 1;
        Holding {
            holding_share,
            looking_share,
            resting_share,
        }
    }

    /// Notes that a worker leaves its desk, and looks for a desk again.
    pub fn lets_go(&mut self, token: Holding<J>) -> Looking<J>
        ensures holding { self.new.holding.total + 1 ≡ self.old.holding.total }
        ensures looking { self.new.looking.total ≡ self.old.looking.total + 1 }
        ensures rest { (self.new.resting.total ≡ self.old.resting.total)
            × (self.new.begun ≡ self.old.begun) }
    {
        let Workers {
            without_desk,
            holding,
            looking,
            ..
        } = self;
        let Holding {
            mut holding_share,
            mut looking_share,
            resting_share,
        } = token;
        holding.audit(&mut holding_share);
        holding.sub(&mut holding_share, 1);
        looking.add(&mut looking_share, 1);
        *without_desk += 1;
        Looking {
            holding_share,
            looking_share,
            resting_share,
        }
    }

    /// Lets a worker that looks for a desk rest, if some other worker has a desk. Otherwise the worker goes on
    /// looking.
    pub fn rests(&mut self, token: Looking<J>) -> Result<Resting<J>, Looking<J>>
        ensures rests { IfOk result (λ _. (self.new.resting.total ≡ self.old.resting.total + 1)
            × (self.new.looking.total + 1 ≡ self.old.looking.total)) }
        ensures another { IfOk result (λ _. 0 < self.old.holding.total) }
        ensures holding { self.new.holding.total ≡ self.old.holding.total }
        ensures awake { IfOk result (λ _. self.new.resting.total < self.new.begun) }
        ensures alone { IfErr result (λ _. (self.old.holding.total ≡ 0) × (self.new ≡ self.old)) }
    {
        if self.without_desk >= self.begun {
            return Err(token);
        }
        Ok(self.begins_rest(token))
    }

    // Lets a worker that looks for a desk rest. Some other worker has a desk.
    fn begins_rest(&mut self, token: Looking<J>) -> Resting<J>
        requires { self.old.without_desk < self.old.begun }
        ensures rests { self.new.resting.total ≡ self.old.resting.total + 1 }
        ensures looking { self.new.looking.total + 1 ≡ self.old.looking.total }
        ensures holding { self.new.holding.total ≡ self.old.holding.total }
        ensures begun { self.new.begun ≡ self.old.begun }
    {
        let Workers {
            looking,
            resting,
            ..
        } = self;
        let Looking {
            holding_share,
            mut looking_share,
            mut resting_share,
        } = token;
        looking.audit(&mut looking_share);
        looking.sub(&mut looking_share, 1);
        resting.add(&mut resting_share, 1);
        Resting {
            holding_share,
            looking_share,
            resting_share,
        }
    }

    /// Lets a worker that rested look for a desk again.
    pub fn wakes(&mut self, token: Resting<J>) -> Looking<J>
        ensures resting { self.new.resting.total + 1 ≡ self.old.resting.total }
        ensures looking { self.new.looking.total ≡ self.old.looking.total + 1 }
        ensures holding { (self.new.holding.total ≡ self.old.holding.total)
            × (self.new.begun ≡ self.old.begun) }
    {
        let Workers {
            looking,
            resting,
            ..
        } = self;
        let Resting {
            holding_share,
            mut looking_share,
            mut resting_share,
        } = token;
        resting.audit(&mut resting_share);
        resting.sub(&mut resting_share, 1);
        looking.add(&mut looking_share, 1);
        Looking {
            holding_share,
            looking_share,
            resting_share,
        }
    }
}
