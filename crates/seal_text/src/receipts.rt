//! The receipts of all members.
ghost use Rattle.std.specs.Prelude.{◌≡◌, ◌<◌, ℕ, List, IfSome, OnOk, length};
ghost use Rattle.std.specs.List.{flat_map, range_with_len};
ghost use Rattle.records.specs.Lines.{Grows};
ghost use Rattle.seal_text.specs.Sealed.{programme_receipt, receipt_text, receipts_text, resident_receipt, result_text_if, roots_text};
ghost use Rattle.seal_text.specs.declared.leaves.Section.TheVariants.{Outcome};
ghost use Rattle.seal_text.specs.Grown.{AreTrees, IsGrownAs, lists_in, member_count, results_in};

use crate::grow::put_row;
use crate::grown::TextTree;
use docket::Docket;
use match_model::{ProgrammeNo, ResidentNo};
use std::alloc::{AllocError, Global};

/// The trees of a docket: that of the lists, and after the match also that of the result.
#[derive(Drop)]
pub(crate) struct Trees {
    /// The tree of the lists.
    pub(crate) lists: TextTree,
    /// The tree of the result, if there is one.
    pub(crate) outcome: Option<TextTree>,
}

impl Trees {
    // Adds the part of a receipt about the result's tree, if there is such a tree.
    fn put_outcome(
        &self,
        alloc: Global,
        rows_text: &mut Vec<u8>,
        secret: &[u8; 32],
        leaf_index: usize,
    ) -> Result<(), AllocError>
        requires outcome { IfSome self.now.outcome
            (IsGrownAs secret.now Outcome (length self.now.lists.leaf_texts.items)) }
        requires index { leaf_index < length self.now.lists.leaf_texts.items }
        ensures { OnOk result
            (Grows rows_text.old rows_text.new (result_text_if secret.now (results_in self.now)
            leaf_index)) }
    {
        match &self.outcome {
            Some(outcome) => outcome.put_part(alloc, rows_text, secret, leaf_index),
            None => Ok(()),
        }
    }

    // Adds the receipt of the member at this place of the trees.
    fn put_receipt(
        &self,
        alloc: Global,
        rows_text: &mut Vec<u8>,
        secret: &[u8; 32],
        side_letter: &[u8],
        name: &[u8],
        leaf_index: usize,
    ) -> Result<(), AllocError>
        requires trees { AreTrees secret.now (length self.now.lists.leaf_texts.items) self.now }
        requires index { leaf_index < length self.now.lists.leaf_texts.items }
        ensures { OnOk result (Grows rows_text.old rows_text.new
            (receipt_text secret.now side_letter.now name.now
            (lists_in self.now) (results_in self.now) leaf_index)) }
    {
        put_row(alloc, rows_text, &[b"member", side_letter, name])?;
        put_row(alloc, rows_text, &[b"receipt", b"2", side_letter, name])?;
        self.lists.put_part(alloc, rows_text, secret, leaf_index)?;
        self.put_outcome(alloc, rows_text, secret, leaf_index)
    }

    // Adds the receipts of the programmes.
    fn put_programmes(
        &self,
        alloc: Global,
        rows_text: &mut Vec<u8>,
        secret: &[u8; 32],
        docket: &Docket,
    ) -> Result<(), AllocError>
        requires trees { AreTrees secret.now (length self.now.lists.leaf_texts.items) self.now }
        requires count { length self.now.lists.leaf_texts.items ≡ member_count docket.now }
        ensures { OnOk result (Grows rows_text.old rows_text.new (flat_map
            (programme_receipt secret.now docket.now (lists_in self.now) (results_in self.now))
            (range_with_len 0 (length docket.now.instance.quotas)))) }
    {
        for p in 0..docket.instance().programmes() {
            let name = docket.programme_name(ProgrammeNo(p)).as_bytes();
            self.put_receipt(alloc, rows_text, secret, b"P", name, p as usize)?;
        }
        Ok(())
    }

    // Adds the receipts of the residents.
    fn put_residents(
        &self,
        alloc: Global,
        rows_text: &mut Vec<u8>,
        secret: &[u8; 32],
        docket: &Docket,
    ) -> Result<(), AllocError>
        requires trees { AreTrees secret.now (length self.now.lists.leaf_texts.items) self.now }
        requires count { length self.now.lists.leaf_texts.items ≡ member_count docket.now }
        ensures { OnOk result (Grows rows_text.old rows_text.new (flat_map
            (resident_receipt secret.now docket.now (lists_in self.now) (results_in self.now))
            (range_with_len 0 (length docket.now.instance.resident_lists)))) }
    {
        let programme_count = docket.instance().programmes() as usize;
        for r in 0..docket.instance().residents() {
            let name = docket.resident_name(ResidentNo(r)).as_bytes();
            self.put_receipt(
                alloc,
                rows_text,
                secret,
                b"R",
                name,
                programme_count + r as usize,
            )?;
        }
        Ok(())
    }

    /// Adds the receipts of all members: of the programmes, and then of the residents.
    pub(crate) fn put_receipts(
        &self,
        alloc: Global,
        rows_text: &mut Vec<u8>,
        secret: &[u8; 32],
        docket: &Docket,
    ) -> Result<(), AllocError>
        requires trees { AreTrees secret.now (length self.now.lists.leaf_texts.items) self.now }
        requires count { length self.now.lists.leaf_texts.items ≡ member_count docket.now }
        ensures { OnOk result (Grows rows_text.old rows_text.new
            (receipts_text secret.now docket.now (lists_in self.now) (results_in self.now))) }
    {
        self.put_programmes(alloc, rows_text, secret, docket)?;
        self.put_residents(alloc, rows_text, secret, docket)
    }

    /// Adds the rows of both trees' roots.
    pub(crate) fn put_roots(&self, alloc: Global, rows_text: &mut Vec<u8>) -> Result<(), AllocError>
        ensures { (secret : List ℕ) → AreTrees secret (length self.now.lists.leaf_texts.items)
            self.now → OnOk result (Grows rows_text.old rows_text.new
            (roots_text secret (lists_in self.now) (results_in self.now))) }
    {
        self.lists.put_root(alloc, rows_text)?;
        match &self.outcome {
            Some(outcome) => outcome.put_root(alloc, rows_text),
            None => Ok(()),
        }
    }
}
