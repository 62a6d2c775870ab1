//! Rows of items, stored one after another in one vector.
ghost use Rattle.std.specs.Prelude.{◌≡◌, ◌+◌, ◌<◌, ◌≤◌, [], ◌∷◌, ◌++◌, length, map, replicate, slice_index_or, slice_set, None, false, IfOk, OnOk, OnErr};
ghost use Rattle.std.specs.List.{slice_range, sum_by};
ghost use Rattle.std.specs.List.Sorted.{IsNonDecreasing};
ghost use Rattle.match_model.specs.Ranking.{is_listed};

use crate::member::{ProgrammeNo, ResidentNo};
use crate::ranking::{programme_numbers, resident_numbers};
use std::alloc::{AllocError, Global};
use std::marker::Model;

/// Rows of items, with the place where each row ends. A new item goes to the open row, until this row is ended.
#[derive(Debug)]
pub(crate) struct Rows<T> {
    items: Vec<T>,
    ends: Vec<usize>,
}

impl<T> Model for Rows<T> {
    ghost use Rattle.std.specs.Prelude.{drop, length};
    ghost use Rattle.match_model.specs.Rows.{RowLists, parted, last_end, AreEnds};

    ghost Value = { RowLists T };

    ghost view = { λ r. record {
      rows = parted 0 r.ends.items r.items.items;
      begun = drop (last_end 0 r.ends.items) r.items.items;
    } };

    ghost invariant = { λ r. AreEnds 0 r.ends.items (length r.items.items) };
}

// One function drops all rows: callers prove nothing about their parts.
impl<T: Drop> Drop for Rows<T> {
    fn drop(self) {
        let Rows { items: _, ends: _ } = self;
    }
}

impl<T: Copy> Rows<T> {
    /// An object without rows, with memory for `rows` rows and `items` items.
    pub(crate) fn with_capacity(
        alloc: Global,
        rows: usize,
        items: usize,
    ) -> Result<Rows<T>, AllocError>
        ensures { IfOk result (λ made. made ≡ record { rows = []; begun = [] }) }
    {
        let items = Vec::with_capacity(alloc, items)?;
        let ends = Vec::with_capacity(alloc, rows)?;
        Ok(Rows { items, ends })
    }

    /// Appends an item to the open row.
    #[inline]
    pub(crate) fn push(&mut self, item: T) -> Result<(), AllocError>
        ensures { OnOk result (self.new ≡ record self.old { begun = self.old.begun ++ item ∷ [] }) }
    {
        self.items.push(item)?;
        Ok(())
    }

    /// Ends the open row.
    #[inline]
    pub(crate) fn end_row(&mut self) -> Result<(), AllocError>
        ensures { OnOk result
            (self.new ≡ record { rows = self.old.rows ++ self.old.begun ∷ []; begun = [] }) }
    {
        self.ends.push(self.items.len())?;
        Ok(())
    }

    /// Overwrites an item of a finished row, and returns the item's index among all items.
    pub(crate) fn set(&mut self, row: usize, place: usize, item: T) -> usize
        requires { place < length (slice_index_or self.old.rows row []) }
        ensures { self.new ≡ record self.old {
          rows = slice_set self.old.rows row
              (slice_set (slice_index_or self.old.rows row []) place item);
        } }
    {
        let item_index = start_of(&self.ends, row) + place;
        self.items[item_index] = item;
        item_index
    }

    /// The index among all items of the item at this place of a row. No contract speaks of it, as it is only a guess.
    #[inline(always)]
    pub(crate) fn index(&self, row: usize, place: usize) -> usize {
        if row == 0 {
            return place;
        }
        match self.ends.get(row - 1) {
            Some(start) => start.wrapping_add(place),
            None => place,
        }
    }

    /// The number of finished rows.
    pub(crate) fn len(&self) -> usize
        ensures { result ≡ length self.now.rows }
    {
        self.ends.len()
    }

    /// The number of all items, including those of the open row.
    pub(crate) fn item_count(&self) -> usize
        ensures { result ≡ sum_by length self.now.rows + length self.now.begun }
    {
        self.items.len()
    }

    /// The finished row with the number `row_number`.
    #[inline(always)]
    pub(crate) fn row(&self, row_number: usize) -> &[T]
        requires { row_number < length self.now.rows }
        ensures { result.now ≡ slice_index_or self.now.rows row_number [] }
    {
        let start = start_of(&self.ends, row_number);
        part(&self.items, start, self.ends[row_number])
    }
}

/// Where the row with the number `row_number` starts, read from the ends of all rows.
#[inline(always)]
fn start_of(ends: &[usize], row_number: usize) -> usize
    requires { row_number < length ends.now }
    ensures { result ≡ slice_index_or (0 ∷ ends.now) row_number 0 }
{
    if row_number == 0 {
        return 0;
    }
    ends[row_number - 1]
}

/// The items from index `start` up to index `end`, without the item at `end`.
#[inline(always)]
fn part<T>(items: &[T], start: usize, end: usize) -> &[T]
    requires order { start ≤ end }
    requires within { end ≤ length items.now }
    ensures { result.now ≡ slice_range items.now start end }
{
    &items[start..end]
}

/// The sum of these lengths. The sum is only a hint for reserving memory, so no contract speaks of it.
fn total_length(lengths: &[usize]) -> usize {
    let mut total_length: usize = 0;
    for length in lengths {
        total_length = total_length.saturating_add(*length);
    }
    total_length
}

/// Appends `zero_count` zeros to a vector.
fn add_zeros(items: &mut Vec<u32>, zero_count: usize) -> Result<(), AllocError>
    ensures added { OnOk result (items.new.items ≡ items.old.items ++ replicate zero_count 0) }
    ensures err { OnErr result (items.new.items ≡ items.old.items) }
{
    items.reserve(zero_count)?;
    for _ in 0..zero_count {
        items.push_reserved(0);
    }
    Ok(())
}

impl Rows<u32> {
    /// The index among all items of a number in a sorted row, if the number stands there.
    #[inline(always)]
    pub(crate) fn find(&self, row: usize, number: u32) -> Option<usize>
        requires { row < length self.now.rows }
        ensures { IsNonDecreasing (slice_index_or self.now.rows row []) → result ≡ None
            → is_listed (slice_index_or self.now.rows row []) number ≡ false }
    {
        match self.row(row).binary_search(&number) {
            Ok(place) => Some(self.index(row, place)),
            Err(_) => None,
        }
    }

    /// Rows of zeros, with these lengths.
    pub(crate) fn of_lengths(alloc: Global, lengths: &[usize]) -> Result<Rows<u32>, AllocError>
        ensures { IfOk result (λ made. made.rows ≡ map (λ n. replicate n 0) lengths.now) }
    {
        let mut rows = Rows::with_capacity(alloc, lengths.len(), total_length(lengths))?;
        for length in lengths {
            rows.push_zeros(*length)?;
            rows.end_row()?;
        }
        Ok(rows)
    }

    /// Appends `zero_count` zeros to the open row.
    fn push_zeros(&mut self, zero_count: usize) -> Result<(), AllocError>
        ensures { OnOk result
            (self.new ≡ record self.old { begun = self.old.begun ++ replicate zero_count 0 }) }
    {
        add_zeros(&mut self.items, zero_count)?;
        Ok(())
    }

    /// These rows, with their numbers as numbers of residents.
    pub(crate) fn into_residents(self, alloc: Global) -> Result<Rows<ResidentNo>, AllocError>
        ensures { IfOk result (λ made. made ≡ self) }
    {
        let Rows { items, ends } = self;
        let items = resident_numbers(alloc, &items)?;
        Ok(Rows { items, ends })
    }

    /// These rows, with their numbers as numbers of programmes.
    pub(crate) fn into_programmes(self, alloc: Global) -> Result<Rows<ProgrammeNo>, AllocError>
        ensures { IfOk result (λ made. made ≡ self) }
    {
        let Rows { items, ends } = self;
        let items = programme_numbers(alloc, &items)?;
        Ok(Rows { items, ends })
    }
}
