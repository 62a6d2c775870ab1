//! Texts as a terminal may show them, without control characters.
ghost use Rattle.std.specs.Prelude.{◌≡◌, ◌++◌, OnOk, string_bytes};
ghost use Rattle.reasons_text.specs.Shown.{shown_char, shown_text};

use std::alloc::AllocError;

// A character, or a question mark for a control character.
fn shown_letter(c: char) -> char
    ensures { result ≡ shown_char c }
{
    if c.is_control() { '?' } else { c }
}

/// Adds a text, with a question mark for each control character.
pub(crate) fn push_shown(terminal_text: &mut String, added_text: &str) -> Result<(), AllocError>
    ensures { OnOk result (string_bytes terminal_text.new
        ≡ string_bytes terminal_text.old ++ shown_text added_text.now) }
{
    for c in added_text.chars() {
        terminal_text.push(shown_letter(c))?;
    }
    Ok(())
}
