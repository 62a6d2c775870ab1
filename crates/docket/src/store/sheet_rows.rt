//! What the third pass needs: the rows of a sheet.
ghost use Rattle.std.specs.Prelude.{◌≡◌, ◌≤◌, ◌++◌, ◌∷◌, [], List, nat_lt, length, OnOk};
ghost use Rattle.records.specs.Reading.{Fields};
ghost use Rattle.docket.specs.Passes.{next_place};
ghost use Rattle.docket.specs.SheetRows.{AreSheetRows, MarkSays};

use crate::vocabulary::MOST_NAMES;
use std::alloc::{AllocError, Global};
use std::marker::Model;

/// What a row of a sheet says. A name is the number of its text.
#[derive(Clone, Copy)]
pub(crate) enum Mark {
    /// `M,resident,programme`
    Matched {
        resident: u32,
        programme: u32,
    },
    /// `U,resident`
    Unmatched {
        resident: u32,
    },
    /// `F,programme,filled,quota`
    Filled {
        programme: u32,
        filled: u32,
        quota: u32,
    },
}

/// A row of a sheet: the number of its record, counted from 1, and what the record says.
#[derive(Clone, Copy)]
pub(crate) struct SheetRow {
    pub(crate) record_no: u32,
    pub(crate) mark: Mark,
}

/// The M, U and F rows, in order. A good sheet has one such row for each member. So if there are more rows than there
/// can be members, the third pass ends among these rows, and no further row is kept.
#[derive(Drop)]
pub(crate) struct SheetRows {
    rows: Vec<SheetRow>,
}

impl Model for SheetRows {
    ghost use Rattle.std.specs.Prelude.{List};
    ghost use Rattle.docket.specs.declared.store.sheet_rows.SheetRow.{SheetRow};

    ghost Value = { List SheetRow };

    ghost view = { λ sheet_rows. sheet_rows.rows.items };
}

impl SheetRows {
    /// No rows.
    pub(crate) fn new(alloc: Global) -> SheetRows
        ensures { (name_texts : Fields) → AreSheetRows name_texts result [] }
    {
        SheetRows {
            rows: Vec::new(alloc),
        }
    }

    /// The rows that are kept.
    pub(crate) fn rows(&self) -> &[SheetRow]
        ensures { result.now ≡ self.now }
    {
        self.rows.as_slice()
    }

    /// Whether more rows are kept than there can be members, so that no further row is kept.
    pub(crate) fn is_cut(&self) -> bool
        ensures { result ≡ nat_lt MOST_NAMES (length self.now) }
    {
        self.rows.len() > MOST_NAMES
    }

    /// Keeps what the record with this number says.
    pub(crate) fn add(&mut self, record_no: u32, mark: Mark) -> Result<(), AllocError>
        requires { length self.old ≤ MOST_NAMES }
        ensures { OnOk result ((name_texts : Fields) (rows : List Fields) (row : Fields)
            → record_no ≡ next_place rows → MarkSays name_texts mark row
            → AreSheetRows name_texts self.old rows
            → AreSheetRows name_texts self.new (rows ++ row ∷ [])) }
    {
        self.rows.push(SheetRow { record_no, mark })?;
        Ok(())
    }
}
