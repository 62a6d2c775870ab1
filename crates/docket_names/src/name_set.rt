//! The names in a docket's rows of one kind, each once.
ghost use Rattle.std.specs.Prelude.{◌≡◌, ◌<◌, ◌||◌, [], ℕ, false, not, nat_eq, length, slice_index_or, IfOk, OnOk};

use std::alloc::{AllocError, Global};
use std::marker::Model;

/// A set of names from a docket. Each name is stored by the number of its text.
#[derive(Drop)]
pub struct NameSet {
    // For each text whether it is in the set. A text past the end of this list is not in the set.
    by_text: Vec<bool>,
}

impl Model for NameSet {
    ghost use Rattle.std.specs.Prelude.{List, Bool};

    ghost Value = { List Bool };

    ghost view = { λ s. s.by_text.items };
}

// Makes the list long enough for the text with this number. The set stays the same.
fn reach(by_text: &mut Vec<bool>, text: usize) -> Result<(), AllocError>
    ensures kept { (n : ℕ)
        → slice_index_or by_text.new.items n false ≡ slice_index_or by_text.old.items n false }
    ensures within { OnOk result (text < length by_text.new.items) }
{
    if text < by_text.len() {
        return Ok(());
    }
    let Some(len) = text.checked_add(1) else {
        return Err(AllocError);
    };
    by_text.resize(len, false)?;
    Ok(())
}

impl NameSet {
    /// A set without names.
    pub fn new(alloc: Global) -> NameSet
        ensures { result ≡ [] }
    {
        NameSet {
            by_text: Vec::new(alloc),
        }
    }

    /// Adds the text with this number to the set, and says whether it is new in the set.
    pub fn add(&mut self, text: usize) -> Result<bool, AllocError>
        ensures fresh { IfOk result (λ is_new. is_new ≡ not (slice_index_or self.old text false)) }
        ensures added { OnOk result ((n : ℕ) → slice_index_or self.new n false
            ≡ (nat_eq n text || slice_index_or self.old n false)) }
    {
        reach(&mut self.by_text, text)?;
        let is_new = !self.by_text[text];
        self.by_text[text] = true;
        Ok(is_new)
    }
}
