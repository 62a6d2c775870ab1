//! An instance together with the lists from which it was made.
ghost use Rattle.std.specs.Prelude.{◌≡◌};
ghost use Rattle.match_model.specs.Instance.{IsInstance};
ghost use Rattle.match_model.specs.Written.{AreWritten};
ghost use Rattle.match_reasons.specs.Listed.{AreItsLists};

use match_model::{Instance, WrittenLists};
use std::marker::Model;

/// An instance, borrowed together with the lists from which it was made, as they were written. No value of this type
/// has the lists of another instance.
#[derive(Drop)]
pub struct Listed<'a> {
    inst: &'a Instance,
    written: &'a WrittenLists,
}

impl<'a> Model for Listed<'a> {
    ghost use Rattle.match_reasons.specs.Listed.{AreItsLists, ListedParts, listed_of};

    ghost Value = { ListedParts };

    ghost view = { λ l. listed_of l.inst.now l.written.now };

    ghost invariant = { λ l. AreItsLists (listed_of l.inst.now l.written.now) };
}

impl<'a> Listed<'a> {
    /// An instance together with the lists from which it was made.
    pub fn new(inst: &'a Instance, written: &'a WrittenLists) -> Listed<'a>
        requires { AreWritten inst.now written.now }
        ensures instance { result.instance ≡ inst.now }
        ensures written { result.written ≡ written.now }
    {
        Listed { inst, written }
    }

    /// The instance, which was made from the lists.
    pub fn instance(&self) -> &Instance
        ensures instance { result.now ≡ self.now.instance }
        ensures whole { IsInstance self.now.instance }
        ensures lists { AreItsLists self.now }
    {
        // For the proof alone: the instance is well formed.
        let _residents = self.inst.residents();
        self.inst
    }

    /// The lists as they were written.
    pub fn lists(&self) -> &WrittenLists
        ensures { result.now ≡ self.now.written }
    {
        self.written
    }
}
