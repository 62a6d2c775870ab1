//! The table of guesses at the numbers of texts.
ghost use Rattle.std.specs.Prelude.{◌≡◌, ◌≤◌, ◌<◌, List, ℕ, length, slice_get, take, Some, IfOk, IfSome};
ghost use Rattle.std.specs.Int.{w64, to_le_bytes};
ghost use Rattle.docket_names.specs.NameKeys.{filled};
ghost use Rattle.docket_names.specs.Guesses.{IsGuess, AreGuesses};

use std::alloc::{AllocError, Global};

// With fewer different texts than this, no number is guessed, so that a small docket needs no table of guesses.
const FEWEST_TEXTS: usize = 64;

// How many entries the first table has, and the last one. A table has four times as many entries as the one before.
const FIRST_PLACES: usize = 256;

const MOST_PLACES: usize = 262_144;

/// In how many entries a guess at a text may stand.
pub(crate) const PLACES_OF_TEXT: usize = 4;

/// The number of a text, with the text's length and its word. A text of at most eight bytes is told by its length and
/// its word.
#[derive(Clone, Copy)]
pub(crate) struct Guess {
    word: u64,
    number: u32,
    len: u32,
}

// An entry without a guess: no name is empty.
const NO_GUESS: Guess = Guess {
    word: 0,
    number: 0,
    len: 0,
};

/// The entry of a text in a table with so many entries, computed from the text's word. Texts that share an entry only
/// take more time.
#[inline(always)]
pub(crate) fn place_of(word: u64, places: usize) -> usize {
    let mixed_word = word.wrapping_mul(0x9E37_79B9_7F4A_7C15) >> 32;
    (mixed_word.wrapping_mul(places as u64) >> 32) as usize
}

// The number of this text, if the guess in an entry of the table says so. The text has at most eight bytes, and `word`
// is these bytes, filled up with zeros, as a number.
#[inline(always)]
fn short_text_at(guesses: &Vec<Guess>, place: usize, text: &[u8], word: u64) -> Option<usize>
    requires some { 0 < length text.now }
    requires short { length text.now ≤ 8 }
    requires word { to_le_bytes w64 word ≡ take 8 (filled text.now) }
    ensures { (texts : List (List ℕ)) → AreGuesses texts guesses.now.items
        → IfSome result (λ n. slice_get texts n ≡ Some text.now) }
{
    match guesses.get(place) {
        Some(guess) if guess.word == word && guess.len as usize == text.len() => {
            Some(guess.number as usize)
        }
        _ => None,
    }
}

/// The number of this text, if a guess has it. The text has at most eight bytes, and `word` is these bytes, filled up
/// with zeros, as a number.
#[inline(always)]
pub(crate) fn find_short_text(guesses: &Vec<Guess>, text: &[u8], word: u64) -> Option<usize>
    requires some { 0 < length text.now }
    requires short { length text.now ≤ 8 }
    requires word { to_le_bytes w64 word ≡ take 8 (filled text.now) }
    ensures { (texts : List (List ℕ)) → AreGuesses texts guesses.now.items
        → IfSome result (λ n. slice_get texts n ≡ Some text.now) }
{
    let place = place_of(word, guesses.len());
    for k in 0..PLACES_OF_TEXT {
        if let Some(number) = short_text_at(guesses, place ^ k, text, word) {
            return Some(number);
        }
    }
    None
}

/// The number in an entry of the table, if the entry is for this word.
#[inline(always)]
pub(crate) fn number_at(guesses: &Vec<Guess>, place: usize, word: u64) -> Option<usize> {
    match guesses.get(place) {
        Some(guess) if guess.word == word => Some(guess.number as usize),
        _ => None,
    }
}

/// Moves the guesses to a larger table if this one has at most two entries for each of so many texts.
pub(crate) fn make_room(
    alloc: Global,
    guesses: &mut Vec<Guess>,
    text_count: usize,
) -> Result<(), AllocError>
    ensures { (texts : List (List ℕ))
        → AreGuesses texts guesses.old.items → AreGuesses texts guesses.new.items }
{
    let places = guesses.len();
    if text_count < (places / 2).max(FEWEST_TEXTS) || places >= MOST_PLACES {
        return Ok(());
    }
    *guesses = moved(alloc, guesses, (places * 4).max(FIRST_PLACES))?;
    Ok(())
}

// A table with so many entries that has these guesses.
fn moved(alloc: Global, guesses: &Vec<Guess>, places: usize) -> Result<Vec<Guess>, AllocError>
    ensures { IfOk result (λ larger_table. (texts : List (List ℕ))
        → AreGuesses texts guesses.now.items → AreGuesses texts larger_table.items) }
{
    let mut larger_table = Vec::from_elem(alloc, NO_GUESS, places)?;
    for guess in guesses {
        if guess.len > 0 {
            set_guess(
                &mut larger_table,
                guess.word,
                guess.len as usize,
                guess.number as usize,
            );
        }
    }
    Ok(larger_table)
}

// The entry for a new guess at a text with this word: the first of its entries without a guess, or else its own.
fn place_for(guesses: &Vec<Guess>, word: u64) -> usize {
    let own_place = place_of(word, guesses.len());
    for k in 0..PLACES_OF_TEXT {
        if let Some(guess) = guesses.get(own_place ^ k)
            && guess.len == 0
        {
            return own_place ^ k;
        }
    }
    own_place
}

/// Makes this number the guess at the text with this word and this length.
pub(crate) fn set_guess(guesses: &mut Vec<Guess>, word: u64, len: usize, number: usize)
    ensures { (texts : List (List ℕ)) → AreGuesses texts guesses.old.items
        → IsGuess texts word len number → AreGuesses texts guesses.new.items }
{
    let (Ok(number), Ok(len)) = (u32::try_from(number), u32::try_from(len)) else {
        return;
    };
    let place = place_for(guesses, word);
    if let Some(entry) = guesses.get_mut(place) {
        *entry = Guess { word, number, len };
    }
}
