//! The members of one side whose receipts the folder has.
ghost use Rattle.std.specs.Prelude.{◌≡◌, ◌∷◌, ◌++◌, [], false, true, is_some, OnOk};
ghost use Rattle.docket_names.specs.Texts.{is_declared, number_in};
ghost use Rattle.docket_names.specs.Words as words;
ghost use Rattle.receipt_check.specs.Folder as folder;

use crate::names::add;
use docket_names::Texts;
use std::alloc::{AllocError, Global};
use std::hash::RandomState;

/// The members of one side whose receipts the folder has, each with the number of the receipt's
/// file.
#[derive(Drop)]
pub(crate) struct PresentMembers {
    names: Texts,
    file_numbers: Vec<usize>,
}

impl PresentMembers {
    /// A side without members.
    pub(crate) fn new(alloc: Global, hash_keys: RandomState) -> PresentMembers
        ensures names { result.names ≡ [] }
        ensures files { result.file_numbers.items ≡ [] }
    {
        PresentMembers {
            names: Texts::new(alloc, hash_keys),
            file_numbers: Vec::new(alloc),
        }
    }

    /// Whether the folder has the receipt of the member with this name.
    pub(crate) fn has(&self, name: &[u8]) -> bool
        ensures { result ≡ is_declared self.now.names name.now }
    {
        self.names.find(name).is_some()
    }

    /// Adds a member, whose receipt is in this file.
    pub(crate) fn add(&mut self, name: &[u8], file_number: usize) -> Result<(), AllocError>
        requires lawful { words.is_name name.now ≡ true }
        requires fresh { is_declared self.old.names name.now ≡ false }
        ensures names { OnOk result (self.new.names ≡ self.old.names ++ name.now ∷ []) }
        ensures files { OnOk result (self.new.file_numbers.items ≡ self.old.file_numbers.items ++
            file_number ∷ []) }
    {
        add(&mut self.names, name)?;
        self.file_numbers.push(file_number)?;
        Ok(())
    }

    /// The number of the file with the receipt of the member with this name.
    pub(crate) fn file_number(&self, name: &[u8]) -> Option<usize>
        ensures { result ≡ folder.file_in self.now.file_numbers.items
            (number_in self.now.names name.now) }
    {
        match self.names.find(name) {
            Some(position) => self.file_numbers.get(position).copied(),
            None => None,
        }
    }
}
