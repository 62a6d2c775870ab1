//! The members of one side, each by the number of its name's text.
ghost use Rattle.std.specs.Prelude.{◌≡◌, ◌<◌, ◌++◌, ◌∷◌, [], not, if◌then◌else◌, is_some, nat_eq, length, position, slice_index_or, List, ℕ, IfOk, OnOk};
ghost use Rattle.docket_names.specs.Texts.{AreFoundBy};

use std::alloc::{AllocError, Global};
use std::marker::Model;

/// The members of one side, in the order in which they were added. A member's number counts from 0 in this order. Each
/// member is stored as the number of its name among the docket's texts.
#[derive(Drop)]
pub struct Members {
    texts: Vec<usize>,
    // For each text the member whose name it is, or none. A text past the end of this list is no member's name.
    by_text: Vec<Option<u32>>,
}

impl Model for Members {
    ghost use Rattle.std.specs.Prelude.{List, ℕ};
    ghost use Rattle.docket_names.specs.Texts.{AreFoundBy};

    ghost Value = { List ℕ };

    ghost view = { λ m. m.texts.items };

    ghost invariant = { λ m. AreFoundBy m.by_text.items m.texts.items };
}

// Makes the list long enough for the text with this number. The added entries are none.
fn reach(by_text: &mut Vec<Option<u32>>, text: usize) -> Result<(), AllocError>
    ensures kept { (texts : List ℕ)
        → AreFoundBy by_text.old.items texts → AreFoundBy by_text.new.items texts }
    ensures within { OnOk result (text < length by_text.new.items) }
{
    if text < by_text.len() {
        return Ok(());
    }
    let Some(len) = text.checked_add(1) else {
        return Err(AllocError);
    };
    by_text.resize(len, None)?;
    Ok(())
}

impl Members {
    /// A list without members.
    pub fn new(alloc: Global) -> Members
        ensures { result ≡ [] }
    {
        Members {
            texts: Vec::new(alloc),
            by_text: Vec::new(alloc),
        }
    }

    /// How many members there are.
    pub fn len(&self) -> usize
        ensures { result ≡ length self.now }
    {
        self.texts.len()
    }

    /// The number of the text that is this member's name.
    pub fn text(&self, member: usize) -> usize
        requires { member < length self.now }
        ensures { result ≡ slice_index_or self.now member 0 }
    {
        self.texts[member]
    }

    /// The member whose name is the text with this number, if there is such a member.
    #[inline(always)]
    pub fn member(&self, text: usize) -> Option<u32>
        ensures { result ≡ position (nat_eq text) self.now }
    {
        match self.by_text.get(text) {
            Some(member) => *member,
            None => None,
        }
    }

    /// Adds a member whose name is the text with this number, unless there is such a member. Says whether the member
    /// is new.
    pub fn add(&mut self, text: usize) -> Result<bool, AllocError>
        ensures fresh { IfOk result (λ is_new.
            is_new ≡ not (is_some (position (nat_eq text) self.old))) }
        ensures added { IfOk result (λ is_new.
            self.new ≡ (if is_new then self.old ++ text ∷ [] else self.old)) }
    {
        if self.member(text).is_some() {
            return Ok(false);
        }
        self.give_place(text)?;
        Ok(true)
    }

    // Adds a member whose name is the text with this number. No member has this name yet.
    fn give_place(&mut self, text: usize) -> Result<(), AllocError>
        requires { position (nat_eq text) self.old ≡ None }
        ensures { OnOk result (self.new ≡ self.old ++ text ∷ []) }
    {
        let Ok(member) = u32::try_from(self.texts.len()) else {
            return Err(AllocError);
        };
        reach(&mut self.by_text, text)?;
        self.texts.push(text)?;
        self.by_text[text] = Some(member);
        Ok(())
    }
}
