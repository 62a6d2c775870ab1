//! The bytes of the files that the command line names.
ghost use Rattle.std.specs.Prelude.{◌≡◌, IfOk, Some, option_map};
ghost use Rattle.audit_files.specs.Line.{IsTwice};
ghost use Rattle.audit_files.specs.Loading.{AreFiles, NamesInput};

use crate::order::Order;
use program_shell::{Unread, load_file, load_if};
use std::alloc::Global;
use std::io::Read;
use std::rt::Files;

/// The bytes of the three files.
#[derive(Drop)]
pub(crate) struct LoadedFiles {
    /// The bytes of the docket's file.
    pub(crate) docket: Vec<u8>,
    /// The bytes of the sheet's file.
    pub(crate) sheet: Vec<u8>,
    /// The bytes of the journal's file, if there is a journal.
    pub(crate) journal: Option<Vec<u8>>,
}

/// The bytes of all files that the command line names.
pub(crate) fn load<'a, R: Read, H: Files + AllocGlobal>(
    rt: &H,
    alloc: Global,
    order: &Order<'a>,
    reader: &mut R,
) -> Result<LoadedFiles, Unread<'a>>
    requires once { IsTwice (Some order.now.docket.now) (Some order.now.sheet.now)
        (option_map (λ path. path.now) order.now.journal) → ⊥ }
    ensures files { IfOk result (λ files. AreFiles order.now (R.remaining reader.old)
        files.docket.items files.sheet.items (option_map (λ bytes. bytes.items) files.journal)) }
    ensures kept { (NamesInput order.now → ⊥) → R.remaining reader.new ≡ R.remaining reader.old }
{
    let docket = match load_file(rt, alloc, order.docket, reader) {
        Ok(bytes) => bytes,
        Err(unread) => return Err(unread),
    };
    let sheet = match load_file(rt, alloc, order.sheet, reader) {
        Ok(bytes) => bytes,
        Err(unread) => return Err(unread),
    };
    match load_if(rt, alloc, order.journal, reader) {
        Ok(journal) => Ok(LoadedFiles {
            docket,
            sheet,
            journal,
        }),
        Err(unread) => Err(unread),
    }
}
