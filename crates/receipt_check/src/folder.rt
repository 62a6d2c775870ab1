//! The receipts of a folder.
ghost use Rattle.std.specs.Prelude.{◌≡◌, ◌<◌, ◌∷◌, ◌++◌, ◌||◌, [], if◌then◌else◌, ℕ, None, Some, false, true, nat_eq, filter, length, map, slice_index_or, IfOk, OnOk};
ghost use Rattle.std.specs.List.{flat_map, list_all, range_with_len};
ghost use Rattle.docket_names.specs.Texts.{is_declared};
ghost use Rattle.docket_names.specs.Words as words;
ghost use Rattle.receipt_check.specs.Faults.{plain_number as plain_number_in};
ghost use Rattle.receipt_check.specs.Folder as folder;
ghost use Rattle.receipt_check.specs.Held.{IsHeld, receipts_of};
ghost use Rattle.receipt_check.specs.Pair as pair;
ghost use Rattle.receipt_check.specs.Rows.{Grows};
ghost use Rattle.receipt_check.specs.Side.{IsSide, receipt_of};

use crate::difference::first_difference;
use crate::kind::Kind;
use crate::opening::plain_number;
use crate::pair_words::put_pair;
use crate::present::PresentMembers;
use crate::print::{put, put_number};
use crate::rows::{cell, field};
use crate::side::ComparedReceipt;
use std::alloc::{AllocError, Global};
use std::hash::RandomState;

/// The receipts of a folder, and what is kept for looking things up in them.
#[derive(Drop)]
pub(crate) struct FolderReceipts<'r, 'a> {
    receipts: Vec<ComparedReceipt<'r, 'a>>,
    // For each member's number, whether the member's receipt is there.
    noted_members: Vec<bool>,
    residents: PresentMembers,
    programmes: PresentMembers,
}

// Whether this number is noted.
fn is_noted(noted_members: &[bool], number: usize) -> bool
    ensures { result ≡ slice_index_or noted_members.now number false }
{
    match noted_members.get(number) {
        Some(noted) => *noted,
        None => false,
    }
}

// Notes a number.
fn set_noted(noted_members: &mut Vec<bool>, number: usize) -> Result<(), AllocError>
    ensures { OnOk result ((m : ℕ) → slice_index_or noted_members.new.items m false
        ≡ (nat_eq m number || slice_index_or noted_members.old.items m false)) }
{
    if number >= noted_members.len() {
        let Some(len) = number.checked_add(1) else {
            return Err(AllocError);
        };
        noted_members.resize(len, false)?;
    }
    noted_members[number] = true;
    Ok(())
}

impl<'r, 'a> FolderReceipts<'r, 'a> {
    /// A folder without receipts.
    pub(crate) fn new(alloc: Global, hash_keys: RandomState) -> FolderReceipts<'r, 'a>
        ensures none { receipts_of result ≡ [] }
        ensures held { IsHeld result }
    {
        FolderReceipts {
            receipts: Vec::new(alloc),
            noted_members: Vec::new(alloc),
            residents: PresentMembers::new(alloc, hash_keys),
            programmes: PresentMembers::new(alloc, hash_keys),
        }
    }

    // Whether the folder has the receipt of the member whose number these digits write.
    fn has_number(&self, digits: &[u8]) -> bool
        requires { IsHeld self.now }
        ensures { result
            ≡ folder.has_number_if (receipts_of self.now) (plain_number_in digits.now) }
    {
        match plain_number(digits) {
            Some(number) => is_noted(self.noted_members.as_slice(), number as usize),
            None => false,
        }
    }

    // Whether the folder has the receipt of the member of this side with this name.
    fn has_name(&self, kind: Kind, name: &[u8]) -> bool
        requires { IsHeld self.now }
        ensures { result ≡ folder.has_name (receipts_of self.now) kind name.now }
    {
        match kind {
            Kind::Programme => self.programmes.has(name),
            Kind::Resident => self.residents.has(name),
        }
    }

    /// Whether the folder has a receipt of the same member already.
    pub(crate) fn has(&self, receipt: &ComparedReceipt) -> bool
        requires { IsHeld self.now }
        ensures { result ≡ folder.is_again (receipts_of self.now) (receipt_of receipt.now) }
    {
        self.has_number(receipt.contents.member_index)
            || self.has_name(receipt.contents.kind, receipt.contents.name)
    }

    // Notes the number that these digits write, if they write one.
    fn note_number(&mut self, digits: &[u8]) -> Result<(), AllocError>
        ensures sides { self.new.receipts ≡ self.old.receipts }
        ensures residents { self.new.residents ≡ self.old.residents }
        ensures programmes { self.new.programmes ≡ self.old.programmes }
        ensures noted { OnOk result ((m : ℕ) → slice_index_or self.new.noted_members.items m false
            ≡ (pair.is_number (plain_number_in digits.now) m
            || slice_index_or self.old.noted_members.items m false)) }
    {
        match plain_number(digits) {
            Some(number) => set_noted(&mut self.noted_members, number as usize),
            None => Ok(()),
        }
    }

    /// Adds the receipt of a member who has none in the folder yet.
    pub(crate) fn add(&mut self, receipt: ComparedReceipt<'r, 'a>) -> Result<(), AllocError>
        requires held { IsHeld self.old }
        requires side { IsSide receipt }
        requires lawful { words.is_name (receipt_of receipt).name ≡ true }
        requires fresh { folder.is_again (receipts_of self.old) (receipt_of receipt) ≡ false }
        ensures added { OnOk result
            (receipts_of self.new ≡ receipts_of self.old ++ receipt_of receipt.entry ∷ []) }
        ensures held { OnOk result (IsHeld self.new) }
    {
        let file_number = self.receipts.len();
        match receipt.contents.kind {
            Kind::Programme => self.programmes.add(receipt.contents.name, file_number)?,
            Kind::Resident => self.residents.add(receipt.contents.name, file_number)?,
        }
        self.note_number(receipt.contents.member_index)?;
        self.receipts.push(receipt)?;
        Ok(())
    }

    // Adds the pairs of a resident's receipt with the receipts of the programmes on the resident's
    // list.
    fn push_choices(
        &self,
        pairs: &mut Vec<(usize, usize)>,
        resident_file: usize,
    ) -> Result<(), AllocError>
        requires held { IsHeld self.now }
        requires within { resident_file < length self.now.receipts.items }
        ensures { OnOk result (pairs.new.items
            ≡ pairs.old.items ++ folder.choice_pairs (receipts_of self.now) resident_file) }
    {
        let list = self.receipts[resident_file].contents.list;
        for k in 0..list.len() {
            match self.programmes.file_number(field(list, k)) {
                Some(programme_file) => pairs.push((resident_file, programme_file))?,
                None => {}
            }
        }
        Ok(())
    }

    // Whether the resident's receipt with this number lists the programme with this name.
    fn lists(&self, resident_file: usize, name: &[u8]) -> bool
        requires held { IsHeld self.now }
        ensures { result
            ≡ is_declared (folder.receipt_at (receipts_of self.now) resident_file).list name.now }
    {
        match self.receipts.get(resident_file) {
            Some(receipt) => receipt.list.find(name).is_some(),
            None => false,
        }
    }

    // Adds the pair of a resident's and a programme's receipt, unless the resident lists the
    // programme with this name.
    fn push_unlisted(
        &self,
        pairs: &mut Vec<(usize, usize)>,
        resident_file: usize,
        name: &[u8],
        programme_file: usize,
    ) -> Result<(), AllocError>
        requires held { IsHeld self.now }
        ensures { OnOk result (pairs.new.items ≡ pairs.old.items
            ++ (if is_declared
            (folder.receipt_at (receipts_of self.now) resident_file).list name.now
            then [] else (resident_file, programme_file) ∷ [])) }
    {
        if !self.lists(resident_file, name) {
            pairs.push((resident_file, programme_file))?;
        }
        Ok(())
    }

    // Adds the pairs of a programme's receipt with the receipts of its residents who don't list it.
    fn push_members(
        &self,
        pairs: &mut Vec<(usize, usize)>,
        programme_file: usize,
    ) -> Result<(), AllocError>
        requires held { IsHeld self.now }
        requires within { programme_file < length self.now.receipts.items }
        ensures { OnOk result (pairs.new.items
            ≡ pairs.old.items ++ folder.member_pairs (receipts_of self.now) programme_file) }
    {
        let contents = self.receipts[programme_file].contents;
        for k in 0..contents.detail_rows.len() {
            match self.residents.file_number(cell(contents.detail_rows, k, 1)) {
                Some(resident_file) => self.push_unlisted(
                    pairs,
                    resident_file,
                    contents.name,
                    programme_file,
                )?,
                None => {}
            }
        }
        Ok(())
    }

    // Adds the pairs of residents with programmes that they list.
    fn push_residents(&self, pairs: &mut Vec<(usize, usize)>) -> Result<(), AllocError>
        requires held { IsHeld self.now }
        ensures { OnOk result (pairs.new.items ≡ pairs.old.items
            ++ flat_map (folder.resident_pairs (receipts_of self.now))
            (range_with_len 0 (length (receipts_of self.now)))) }
    {
        for k in 0..self.receipts.len() {
            if !self.receipts[k].contents.kind.is_programme() {
                self.push_choices(pairs, k)?;
            }
        }
        Ok(())
    }

    // Adds the pairs of programmes with residents who don't list them.
    fn push_programmes(&self, pairs: &mut Vec<(usize, usize)>) -> Result<(), AllocError>
        requires held { IsHeld self.now }
        ensures { OnOk result (pairs.new.items ≡ pairs.old.items
            ++ flat_map (folder.programme_pairs (receipts_of self.now))
            (range_with_len 0 (length (receipts_of self.now)))) }
    {
        for k in 0..self.receipts.len() {
            if self.receipts[k].contents.kind.is_programme() {
                self.push_members(pairs, k)?;
            }
        }
        Ok(())
    }

    // The pairs that are compared.
    #[tactic(auto, unfolding(crate::specs::Folder::pairs_of))]
    fn pairs(&self, alloc: Global) -> Result<Vec<(usize, usize)>, AllocError>
        requires held { IsHeld self.now }
        ensures { IfOk result (λ pairs. pairs.items ≡ folder.pairs_of (receipts_of self.now)) }
    {
        let mut pairs = Vec::new(alloc);
        self.push_residents(&mut pairs)?;
        self.push_programmes(&mut pairs)?;
        Ok(pairs)
    }

    // Those of the pairs in which the two receipts differ.
    fn differing_pairs(
        &self,
        alloc: Global,
        pairs: &[(usize, usize)],
    ) -> Result<Vec<(usize, usize)>, AllocError>
        requires held { IsHeld self.now }
        requires pairs { pairs.now ≡ folder.pairs_of (receipts_of self.now) }
        ensures { IfOk result (λ differing_pairs. differing_pairs.items
            ≡ folder.differing_pairs (receipts_of self.now)) }
    {
        let mut differing_pairs = Vec::new(alloc);
        for k in 0..pairs.len() {
            let (resident_file, programme_file) = pairs[k];
            if first_difference(
                &self.receipts[resident_file],
                &self.receipts[programme_file],
            )
            .is_some()
            {
                differing_pairs.push((resident_file, programme_file))?;
            }
        }
        Ok(differing_pairs)
    }

    // Adds a sentence on each pair that differs.
    fn put_differing_pairs(
        &self,
        sentences: &mut Vec<u8>,
        pairs: &[(usize, usize)],
    ) -> Result<(), AllocError>
        requires held { IsHeld self.now }
        requires pairs { pairs.now ≡ folder.differing_pairs (receipts_of self.now) }
        ensures { OnOk result (Grows sentences.old sentences.new
            (flat_map (folder.words_at (receipts_of self.now)) pairs.now)) }
    {
        for k in 0..pairs.len() {
            let (resident_file, programme_file) = pairs[k];
            let (resident, programme) = (
                &self.receipts[resident_file],
                &self.receipts[programme_file],
            );
            put_pair(
                sentences,
                first_difference(resident, programme),
                resident,
                programme,
            )?;
        }
        Ok(())
    }

    // Whether the folder has a receipt of each member numbered below `member_count`.
    fn is_whole(&self, member_count: usize) -> bool
        requires held { IsHeld self.now }
        ensures { result ≡ folder.is_whole member_count (receipts_of self.now) }
    {
        (0..member_count).all(|number| is_noted(self.noted_members.as_slice(), number))
    }

    // Whether the folder has a receipt of each member numbered below `member_count`, and no pair
    // differs.
    fn is_stable(&self, member_count: usize, differing_pairs: &[(usize, usize)]) -> bool
        requires held { IsHeld self.now }
        requires differing { differing_pairs.now ≡ folder.differing_pairs (receipts_of self.now) }
        ensures { result ≡ folder.is_stable member_count (receipts_of self.now) }
    {
        self.is_whole(member_count) && differing_pairs.len() == 0
    }

    /// Adds the text about the folder's receipts, where `member_count` is the number of all members.
    /// Returns whether the placement is stable.
    pub(crate) fn put_folder_text(
        &self,
        alloc: Global,
        sentences: &mut Vec<u8>,
        member_count: usize,
    ) -> Result<bool, AllocError>
        requires held { IsHeld self.now }
        ensures text { OnOk result (Grows sentences.old sentences.new
            (folder.folder_text member_count (receipts_of self.now))) }
        ensures stable { IfOk result (λ stable. stable
            ≡ folder.is_stable member_count (receipts_of self.now)) }
    {
        let pairs = self.pairs(alloc)?;
        let differing_pairs = self.differing_pairs(alloc, pairs.as_slice())?;
        self.put_differing_pairs(sentences, differing_pairs.as_slice())?;
        let present_count = self.receipts.as_slice().len();
        let (pair_count, differing_count) = (
            pairs.as_slice().len(),
            differing_pairs.as_slice().len(),
        );
        put_counts(
            sentences,
            present_count,
            member_count,
            pair_count,
            differing_count,
        )?;
        let stable = self.is_stable(member_count, differing_pairs.as_slice());
        put_stable(sentences, stable)?;
        Ok(stable)
    }
}

// Adds two numbers, with words between them and after them.
fn put_two_numbers(
    sentences: &mut Vec<u8>,
    first_number: usize,
    middle_words: &[u8],
    second_number: usize,
    end_words: &[u8],
) -> Result<(), AllocError>
    ensures { OnOk result (Grows sentences.old sentences.new
        (folder.two_numbers first_number middle_words.now second_number end_words.now)) }
{
    put_number(sentences, first_number)?;
    put(sentences, middle_words)?;
    put_number(sentences, second_number)?;
    put(sentences, end_words)
}

// Adds how many of all members have a receipt in the folder, how many pairs were compared, and how many
// pairs differ.
fn put_counts(
    sentences: &mut Vec<u8>,
    present_count: usize,
    member_count: usize,
    pair_count: usize,
    differing_count: usize,
) -> Result<(), AllocError>
    ensures { OnOk result (Grows sentences.old sentences.new
        (folder.counts_text present_count member_count pair_count differing_count)) }
{
    put_two_numbers(
        sentences,
        present_count,
        b" of ",
        member_count,
        b" members are there, and ",
    )?;
    put_two_numbers(
        sentences,
        pair_count,
        b" pairs were compared: ",
        differing_count,
        b" differ.\n",
    )
}

// Adds the sentence that the placement is stable, if it is.
fn put_stable(sentences: &mut Vec<u8>, stable: bool) -> Result<(), AllocError>
    ensures { OnOk result (Grows sentences.old sentences.new (folder.stable_text stable)) }
{
    if stable {
        return put(sentences, b"The placement is stable.\n");
    }
    Ok(())
}
