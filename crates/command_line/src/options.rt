//! What a command line can ask the program to do.

use exchange_core::Capacity;

/// Which journal a match writes after its sheet.
#[derive(Clone, Copy, Debug, PartialEq, Eq)]
pub enum JournalForm {
    /// No journal.
    Absent,
    /// The events of the journal.
    Plain,
    /// The events of the journal, each with the number of the worker that entered it.
    ByWorker,
}

/// How a match is run.
#[derive(Clone, Copy, Debug, PartialEq, Eq)]
pub struct MatchOptions {
    /// How many threads work on the match: 1 to 8.
    pub workers: usize,
    /// The capacity of the mailboxes.
    pub capacity: Capacity,
    /// The journal that the match writes after the sheet.
    pub journal: JournalForm,
}

impl Default for MatchOptions {
    ghost use Rattle.command_line.specs.Options.{IsWithinLimits};

    ghost is_default = { IsWithinLimits };

    fn default() -> MatchOptions {
        MatchOptions {
            workers: 2,
            capacity: Capacity::Full,
            journal: JournalForm::Absent,
        }
    }
}

/// What the program is asked to do.
#[derive(Clone, Copy, Debug, PartialEq, Eq)]
pub enum Order {
    /// Run the match of a docket, and write its sheet.
    Match(MatchOptions),
    /// Say what keeps the sheet of a docket from being stable.
    Audit,
    /// Say whether the journal of a docket is a good exchange, and whether the journal leads to the docket's sheet.
    Replay,
}
