//! What the command line's words order.
ghost use Rattle.std.specs.Prelude.{◌≡◌, Some, option_map};
ghost use Rattle.std.specs.Bool.{OnFalse, OnTrue};
ghost use Rattle.audit_files.specs.Line.{IsInput, IsTwice};

use docket::Part;
use program_shell::is_input;

/// Which files to audit, and whether facts are asked for.
#[derive(Clone, Copy, Debug, PartialEq, Eq)]
pub struct Order<'a> {
    /// The path of the docket's file.
    pub docket: &'a str,
    /// The path of the sheet's file.
    pub sheet: &'a str,
    /// The path of the journal's file, if a journal is named.
    pub journal: Option<&'a str>,
    /// Whether the rows of facts are asked for.
    pub facts: bool,
}

impl<'a> Order<'a> {
    /// The path of the file of this part.
    pub(crate) fn path_of(&self, part: Part) -> &'a str {
        match (part, self.journal) {
            (Part::Docket, _) => self.docket,
            (Part::Sheet, _) => self.sheet,
            (Part::Journal, Some(path)) => path,
            (Part::Journal, None) => "-",
        }
    }
}

// Whether a path is given and stands for standard input.
fn is_input_if(path: Option<&str>) -> bool
    ensures named { OnTrue result (IsInput (option_map (λ path. path.now) path.entry)) }
    ensures other { OnFalse result (IsInput (option_map (λ path. path.now) path.entry) → ⊥) }
{
    match path {
        Some(path) => is_input(path),
        None => false,
    }
}

/// Whether more than one of the files would come from standard input.
pub(crate) fn takes_input_twice(order: &Order) -> bool
    ensures twice { OnTrue result (IsTwice (Some order.now.docket.now) (Some order.now.sheet.now)
        (option_map (λ path. path.now) order.now.journal)) }
    ensures once { OnFalse result (IsTwice (Some order.now.docket.now) (Some order.now.sheet.now)
        (option_map (λ path. path.now) order.now.journal) → ⊥) }
{
    let (docket_is_input, sheet_is_input) = (is_input(order.docket), is_input(order.sheet));
    match (docket_is_input, sheet_is_input, is_input_if(order.journal)) {
        (true, true, _) | (true, _, true) | (_, true, true) => true,
        _ => false,
    }
}
