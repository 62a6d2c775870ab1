//! A docket: names, an instance, and an optional sheet and journal.
ghost use Rattle.std.specs.Prelude.{◌≡◌, option_copied};
ghost use Rattle.match_model.specs.Instance.{IsProgramme, IsResident};
ghost use Rattle.docket.specs.Texts as texts;
ghost use Rattle.docket.specs.Whole.{IsWhole};

use docket_names::Names;
use exchange_core::{Capacity, Event};
use match_model::{Assignment, Instance, ProgrammeNo, ResidentNo};
use std::marker::Model;

/// Which worker made which event of a journal.
#[derive(Drop)]
pub struct ByWorker {
    /// How many workers there were, from 1 to 8.
    pub workers: u32,
    /// For each event, in order, the number of the worker that made the event. Each number is below the number of
    /// workers.
    pub who: Vec<u8>,
}

impl Model for ByWorker {
    ghost use Rattle.docket.specs.Contents.{ByWorkerParts};

    ghost Value = { ByWorkerParts };

    ghost view = { λ by_worker. record { workers = by_worker.workers; who = by_worker.who.items } };
}

/// The journal of an exchange: the capacity of its mailboxes, and its events in order. A journal by worker also says
/// which worker made each event.
#[derive(Drop)]
pub struct Journal {
    /// The capacity of the mailboxes.
    pub capacity: Capacity,
    /// The events, in order.
    pub events: Vec<Event>,
    /// Which worker made each event, if the journal says so.
    pub by: Option<ByWorker>,
}

impl Model for Journal {
    ghost use Rattle.docket.specs.Contents.{JournalParts};

    ghost Value = { JournalParts };

    ghost view = { λ journal.
        record { capacity = journal.capacity; events = journal.events.items; by = journal.by } };
}

/// The contents of a docket.
pub struct Docket {
    pub(crate) names: Names,
    pub(crate) instance: Instance,
    pub(crate) sheet: Option<Assignment>,
    pub(crate) journal: Option<Journal>,
}

impl Model for Docket {
    ghost use Rattle.docket.specs.Contents.{Contents};
    ghost use Rattle.docket.specs.Whole.{IsWhole};

    ghost Value = { Contents };

    ghost view = { λ docket. record {
      programmes = docket.names.programmes;
      residents = docket.names.residents;
      instance = docket.instance;
      sheet = docket.sheet;
      journal = docket.journal;
    } };

    ghost invariant = { λ docket.
        IsWhole (record {
          programmes = docket.names.programmes;
          residents = docket.names.residents;
          instance = docket.instance;
          sheet = docket.sheet;
          journal = docket.journal;
        }) };
}

// One function drops the whole docket: callers prove nothing about its parts.
impl Drop for Docket {
    fn drop(self) {
        let Docket {
            names: _,
            instance: _,
            sheet: _,
            journal: _,
        } = self;
    }
}

impl Docket {
    /// The docket's instance: the quotas and the rankings.
    pub fn instance(&self) -> &Instance
        ensures instance { result.now ≡ self.now.instance }
        ensures whole { IsWhole self.now }
    {
        &self.instance
    }

    /// The name of a programme of the docket's instance.
    pub fn programme_name(&self, programme: ProgrammeNo) -> &str
        requires { IsProgramme self.now.instance programme }
        ensures { result.now ≡ texts.programme_name self.now programme }
    {
        self.names.programme_name(programme.0 as usize)
    }

    /// The name of a resident of the docket's instance.
    pub fn resident_name(&self, resident: ResidentNo) -> &str
        requires { IsResident self.now.instance resident }
        ensures { result.now ≡ texts.resident_name self.now resident }
    {
        self.names.resident_name(resident.0 as usize)
    }

    /// The sheet, if the docket has one.
    pub fn sheet(&self) -> Option<&Assignment>
        ensures sheet { option_copied result ≡ self.now.sheet }
        ensures whole { IsWhole self.now }
    {
        self.sheet.as_ref()
    }

    /// The journal, if the docket has one.
    pub fn journal(&self) -> Option<&Journal>
        ensures journal { option_copied result ≡ self.now.journal }
        ensures whole { IsWhole self.now }
    {
        self.journal.as_ref()
    }
}
