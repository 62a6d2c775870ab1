//! The different texts of a docket, each stored once.
ghost use Rattle.std.specs.Prelude.{◌≡◌, ◌≤◌, ◌<◌, [], Some, true, is_some, bytes_eq, length, slice_get, take, IfOk, IfSome};
ghost use Rattle.std.specs.Int.{w64, to_le_bytes};
ghost use Rattle.std.specs.List.{IsDistinct, list_all};
ghost use Rattle.docket_names.specs.NameKeys.{filled};
ghost use Rattle.docket_names.specs.Texts.{number_in, StartsWith, IsJoined};
ghost use Rattle.docket_names.specs.Words as words;

use crate::guesses::{
    Guess, PLACES_OF_TEXT, find_short_text, make_room, number_at, place_of, set_guess,
};
use crate::name_key::{MAX_NAME, NameKey, short_word};
use crate::words::is_name;
use indexmap::IndexSet;
use std::alloc::{AllocError, Global};
use std::hash::RandomState;
use std::marker::Model;

/// The different texts, numbered from 0, in the order in which they were first seen. Each text has the form of a name.
///
/// To find a text, its number is guessed first. If texts come in the order of their numbers, the guess is the number
/// after the last one. Otherwise the entries for the text in the table of guesses are tried. A text of at most eight
/// bytes is compared with the guess, and a longer one with the text that has the guessed number. If no guess is right,
/// the text is found by its hash.
pub struct Texts {
    alloc: Global,
    seen_names: IndexSet<NameKey, RandomState>,
    // The number after the one found last, and whether the text found last came right after the one before it.
    next_number: usize,
    in_order: bool,
    guesses: Vec<Guess>,
}

impl Model for Texts {
    ghost use Rattle.std.specs.Prelude.{List, ℕ, ◌≡◌, true};
    ghost use Rattle.std.specs.List.{list_all};
    ghost use Rattle.docket_names.specs.Words.{is_name};
    ghost use Rattle.docket_names.specs.Guesses.{AreGuesses};

    ghost Value = { List (List ℕ) };

    ghost view = { λ a. a.seen_names.keys };

    ghost invariant = { λ a. (list_all is_name a.seen_names.keys ≡ true)
        × AreGuesses a.seen_names.keys a.guesses.items };
}

// One function drops all texts: callers prove nothing about their parts.
impl Drop for Texts {
    fn drop(self) {
        let Texts {
            alloc: _,
            seen_names: _,
            next_number: _,
            in_order: _,
            guesses: _,
        } = self;
    }
}

impl Texts {
    /// An object without texts. Texts that are added later are hashed with these keys.
    pub fn new(alloc: Global, keys: RandomState) -> Texts
        ensures { result ≡ [] }
    {
        Texts {
            alloc,
            seen_names: IndexSet::with_hasher(alloc, keys),
            next_number: 0,
            in_order: false,
            guesses: Vec::new(alloc),
        }
    }

    /// How many texts there are. No text has two numbers.
    pub fn len(&self) -> usize
        ensures count { result ≡ length self.now }
        ensures distinct { IsDistinct bytes_eq self.now }
    {
        self.seen_names.len()
    }

    /// The text with this number.
    pub fn text(&self, number: usize) -> &[u8]
        requires { number < length self.now }
        ensures { slice_get self.now number ≡ Some result.now }
    {
        match self.seen_names.get_index(number) {
            Some(key) => key.text(),
            None => unreachable!("each number below the count has a text"),
        }
    }

    /// The number of this text, if it is one of the texts.
    pub fn find(&self, text: &[u8]) -> Option<usize>
        ensures { result ≡ number_in self.now text.now }
    {
        let seen_names = &self.seen_names;
        if text.len() > MAX_NAME {
            return None;
        }
        seen_names.get_index_of(&NameKey::new(text))
    }

    // Whether this text has this number. The text has at most eight bytes, and `word` is these bytes, filled up with
    // zeros, as a number.
    #[inline(always)]
    fn is_short_text(&self, number: usize, text: &[u8], word: u64) -> bool
        requires short { length text.now ≤ 8 }
        requires word { to_le_bytes w64 word ≡ take 8 (filled text.now) }
        ensures { result ≡ true → slice_get self.now number ≡ Some text.now }
    {
        match self.seen_names.get_index(number) {
            Some(key) => key.is_short(text, word),
            None => false,
        }
    }

    // Whether this text has this number.
    #[inline(always)]
    fn is_text(&self, number: usize, text: &NameKey) -> bool
        ensures { result ≡ true → slice_get self.now number ≡ Some text.now }
    {
        match self.seen_names.get_index(number) {
            Some(key) => key == text,
            None => false,
        }
    }

    // The number of this text, if a guess finds it. The text has at most eight bytes, and `word` is these bytes,
    // filled up with zeros, as a number.
    #[inline(always)]
    fn guess_short_text(&self, text: &[u8], word: u64) -> Option<usize>
        requires some { 0 < length text.now }
        requires short { length text.now ≤ 8 }
        requires word { to_le_bytes w64 word ≡ take 8 (filled text.now) }
        ensures { IfSome result (λ n. slice_get self.now n ≡ Some text.now) }
    {
        let next_number = self.next_number;
        if self.in_order && self.is_short_text(next_number, text, word) {
            return Some(next_number);
        }
        find_short_text(&self.guesses, text, word)
    }

    // The number of this text, if a guess finds the text.
    #[inline(always)]
    fn guess_text(&self, text: &NameKey) -> Option<usize>
        ensures { IfSome result (λ n. slice_get self.now n ≡ Some text.now) }
    {
        let next_number = self.next_number;
        if self.in_order && self.is_text(next_number, text) {
            return Some(next_number);
        }
        let word = text.word();
        let place = place_of(word, self.guesses.len());
        for k in 0..PLACES_OF_TEXT {
            if let Some(number) = number_at(&self.guesses, place ^ k, word)
                && self.is_text(number, text)
            {
                return Some(number);
            }
        }
        None
    }

    // The number of a text, if a guess finds the text. A text of at most eight bytes is compared as one word.
    #[inline(always)]
    fn guessed(&self, text: &[u8]) -> Option<usize>
        ensures { IfSome result (λ n. slice_get self.now n ≡ Some text.now) }
    {
        match text.len() {
            1..=8 => self.guess_short_text(text, short_word(text)),
            9..=MAX_NAME => self.guess_text(&NameKey::new(text)),
            _ => None,
        }
    }

    // Notes the number that was found last.
    #[inline(always)]
    fn note(&mut self, number: usize)
        ensures { self.new ≡ self.old }
    {
        self.in_order = number == self.next_number;
        self.next_number = number.saturating_add(1);
    }

    /// The number of this text, if a guess finds the text. A text that a guess finds has the form of a name.
    #[inline(always)]
    pub fn known(&mut self, text: &[u8]) -> Option<usize>
        ensures kept { self.new ≡ self.old }
        ensures number { IfSome result (λ n. slice_get self.new n ≡ Some text.now) }
        ensures named { is_some result ≡ true → words.is_name text.now ≡ true }
    {
        // For the proof alone: each text has the form of a name.
        let _seen = &self.seen_names;
        let number = self.guessed(text)?;
        self.note(number);
        Some(number)
    }

    /// The number of this name. If the name is new, it is added to the texts. No text is removed.
    #[inline(always)]
    pub fn number(&mut self, name: &[u8]) -> Result<usize, AllocError>
        requires { words.is_name name.now ≡ true }
        ensures number { IfOk result (λ n. slice_get self.new n ≡ Some name.now) }
        ensures kept { StartsWith self.old self.new }
        ensures joined { IfOk result (λ n. IsJoined self.old self.new name.now) }
    {
        match self.known(name) {
            Some(number) => Ok(number),
            None => self.join(name),
        }
    }

    /// The number of this text, or none if the text does not have the form of a name. If a name is new, it is added to
    /// the texts. A text that is among the texts already needs no test of its form.
    #[inline(always)]
    pub fn name(&mut self, text: &[u8]) -> Result<Option<usize>, AllocError>
        ensures named { IfOk result (λ n. is_some n ≡ words.is_name text.now) }
        ensures number { IfOk result (λ n. IfSome n (λ n. slice_get self.new n ≡ Some text.now)) }
        ensures kept { StartsWith self.old self.new }
        ensures joined { IfOk result (λ n. IsJoined self.old self.new text.now) }
    {
        if let Some(number) = self.known(text) {
            return Ok(Some(number));
        }
        if !is_name(text) {
            return Ok(None);
        }
        let number = self.join(text)?;
        Ok(Some(number))
    }

    // The number of this name, found by its hash. A new name is added, and its number becomes the name's next guess.
    #[inline(never)]
    fn join(&mut self, name: &[u8]) -> Result<usize, AllocError>
        requires { words.is_name name.now ≡ true }
        ensures number { IfOk result (λ n. slice_get self.new n ≡ Some name.now) }
        ensures kept { StartsWith self.old self.new }
        ensures joined { IfOk result (λ n. IsJoined self.old self.new name.now) }
    {
        let key = NameKey::new(name);
        let word = key.word();
        let number = insert(&mut self.seen_names, key)?;
        make_room(self.alloc, &mut self.guesses, number)?;
        set_guess(&mut self.guesses, word, name.len(), number);
        self.note(number);
        Ok(number)
    }
}

// The number of this key in the set. If the key is new, it is added to the set.
fn insert(
    seen_names: &mut IndexSet<NameKey, RandomState>,
    name: NameKey,
) -> Result<usize, AllocError>
    requires names { list_all words.is_name seen_names.old.keys ≡ true }
    requires name { words.is_name name ≡ true }
    ensures number { IfOk result (λ n. slice_get seen_names.new.keys n ≡ Some name) }
    ensures kept { StartsWith seen_names.old.keys seen_names.new.keys }
    ensures joined { IfOk result (λ n. IsJoined seen_names.old.keys seen_names.new.keys name) }
    ensures names { list_all words.is_name seen_names.new.keys ≡ true }
{
    let (number, _) = seen_names.insert_full(name)?;
    Ok(number)
}
