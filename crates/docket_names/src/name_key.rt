//! The key by which a name is found.
ghost use Rattle.std.specs.Prelude.{◌≡◌, ◌≤◌, ◌+◌, ◌∷◌, [], true, length, take, drop, bytes_eq};
ghost use Rattle.std.specs.Int.{w64, to_le_bytes, from_le_bytes};
ghost use Rattle.std.specs.Cmp.{partial_equiv_from_equiv};
ghost use Rattle.std.specs.Cmp.Lexicographic.{nat_list_eq_equiv};
ghost use Rattle.std.specs.Cmp.Rules.{hashing};
ghost use Rattle.std.proofs.Common.{rules};
ghost use Rattle.docket_names.specs.NameKeys.{filled, hashed, width_hashed};

use std::hash::{Hash, Hasher};
use std::marker::Model;

/// The greatest length of a name, in bytes.
pub(crate) const MAX_NAME: usize = 32;

/// A text of at most 32 bytes, filled up with zeros. Keys are hashed and compared by whole words of eight bytes, and
/// most names are one word long.
#[derive(Drop)]
pub(crate) struct NameKey {
    bytes: [u8; MAX_NAME],
    len: u8,
}

impl Model for NameKey {
    ghost use Rattle.std.specs.Prelude.{List, ℕ, take};
    ghost use Rattle.docket_names.specs.NameKeys.{IsFilled};

    ghost Value = { List ℕ };

    ghost view = { λ k. take k.len k.bytes };

    ghost invariant = { λ k. IsFilled k.len k.bytes };
}

impl NameKey {
    /// The key of a text.
    pub(crate) fn new(text: &[u8]) -> NameKey
        requires { length text.now ≤ MAX_NAME }
        ensures { result ≡ text.now }
    {
        let mut bytes = [0; MAX_NAME];
        bytes[..text.len()].copy_from_slice(text);
        NameKey {
            bytes,
            len: text.len() as u8,
        }
    }

    /// The text of this key, without the zeros.
    pub(crate) fn text(&self) -> &[u8]
        ensures { result.now ≡ self.now }
    {
        &self.bytes[..self.len as usize]
    }

    /// Whether this is the key of this text. The text has at most eight bytes, and `word` is these bytes, filled up
    /// with zeros, as a number.
    #[inline(always)]
    pub(crate) fn is_short(&self, text: &[u8], word: u64) -> bool
        requires short { length text.now ≤ 8 }
        requires word { to_le_bytes w64 word ≡ take 8 (filled text.now) }
        ensures { result ≡ true → self.now ≡ text.now }
    {
        self.len as usize == text.len() && first_word(&self.bytes) == word
    }

    /// The text as a single number. For a text of at most eight bytes it is these bytes, filled up with zeros. For a
    /// longer text it is a mixture of all its words.
    #[inline(always)]
    pub(crate) fn word(&self) -> u64
        ensures { length self.now ≤ 8 → to_le_bytes w64 result ≡ take 8 (filled self.now) }
    {
        let word_one = first_word(&self.bytes);
        if self.len <= 8 {
            return word_one;
        }
        let word_two = word_at(&self.bytes, 8).rotate_left(7);
        let word_three = word_at(&self.bytes, 16).rotate_left(14);
        let word_four = word_at(&self.bytes, 24).rotate_left(21);
        word_one ^ word_two ^ word_three ^ word_four
    }
}

// Eight bytes as a single number.
#[inline(always)]
fn word_of(bytes: &[u8; 8]) -> u64
    ensures { to_le_bytes w64 result ≡ bytes.now }
{
    u64::from_le_bytes([
        bytes[0], bytes[1], bytes[2], bytes[3], bytes[4], bytes[5], bytes[6], bytes[7],
    ])
}

/// The bytes of a text of at most eight bytes, filled up with zeros, as a single number.
#[inline(always)]
pub(crate) fn short_word(text: &[u8]) -> u64
    requires { length text.now ≤ 8 }
    ensures { to_le_bytes w64 result ≡ take 8 (filled text.now) }
{
    match text.len() {
        8 => word_of(&[
            text[0], text[1], text[2], text[3], text[4], text[5], text[6], text[7],
        ]),
        7 => word_of(&[
            text[0], text[1], text[2], text[3], text[4], text[5], text[6], 0,
        ]),
        6 => word_of(&[text[0], text[1], text[2], text[3], text[4], text[5], 0, 0]),
        5 => word_of(&[text[0], text[1], text[2], text[3], text[4], 0, 0, 0]),
        4 => word_of(&[text[0], text[1], text[2], text[3], 0, 0, 0, 0]),
        3 => word_of(&[text[0], text[1], text[2], 0, 0, 0, 0, 0]),
        2 => word_of(&[text[0], text[1], 0, 0, 0, 0, 0, 0]),
        1 => word_of(&[text[0], 0, 0, 0, 0, 0, 0, 0]),
        _ => word_of(&[0; 8]),
    }
}

// The first eight bytes as a single number.
fn first_word(bytes: &[u8; MAX_NAME]) -> u64
    ensures value { result ≡ from_le_bytes w64 (take 8 bytes.now) }
    ensures bytes { to_le_bytes w64 result ≡ take 8 bytes.now }
{
    u64::from_le_bytes([
        bytes[0], bytes[1], bytes[2], bytes[3], bytes[4], bytes[5], bytes[6], bytes[7],
    ])
}

// The eight bytes from byte `i` on, as a single number.
#[inline(always)]
fn word_at(bytes: &[u8; MAX_NAME], i: usize) -> u64
    requires { i + 8 ≤ MAX_NAME }
    ensures value { result ≡ from_le_bytes w64 (take 8 (drop i bytes.now)) }
    ensures bytes { to_le_bytes w64 result ≡ take 8 (drop i bytes.now) }
{
    u64::from_le_bytes([
        bytes[i],
        bytes[i + 1],
        bytes[i + 2],
        bytes[i + 3],
        bytes[i + 4],
        bytes[i + 5],
        bytes[i + 6],
        bytes[i + 7],
    ])
}

// Whether two keys' bytes are equal, compared word by word.
fn same_words(left_bytes: &[u8; MAX_NAME], right_bytes: &[u8; MAX_NAME]) -> bool
    ensures { result ≡ bytes_eq left_bytes.now right_bytes.now }
{
    let first_equal = word_at(left_bytes, 0) == word_at(right_bytes, 0);
    let second_equal = word_at(left_bytes, 8) == word_at(right_bytes, 8);
    let third_equal = word_at(left_bytes, 16) == word_at(right_bytes, 16);
    let fourth_equal = word_at(left_bytes, 24) == word_at(right_bytes, 24);
    first_equal & second_equal & third_equal & fourth_equal
}

// How many bytes of the key are hashed for a text of this length: one word, two words, or all four words.
fn hashed_width(len: u8) -> usize
    requires { len ≤ MAX_NAME }
    ensures width { result ≡ width_hashed len }
    ensures within { result ≤ MAX_NAME }
{
    if len <= 8 {
        8
    } else if len <= 16 {
        16
    } else {
        MAX_NAME
    }
}

// Two texts have the same key exactly if they are equal.
impl PartialEq for NameKey {
    ghost eq = { bytes_eq };

    ghost laws = { partial_equiv_from_equiv nat_list_eq_equiv };

    fn eq(&self, other: &NameKey) -> bool {
        if self.len != other.len {
            return false;
        }
        if first_word(&self.bytes) != first_word(&other.bytes) {
            return false;
        }
        self.len <= 8 || same_words(&self.bytes, &other.bytes)
    }
}

impl Eq for NameKey {
    ghost laws = { nat_list_eq_equiv };
}

impl Hash for NameKey {
    ghost hash_input = { λ text. hashed text ∷ [] };

    ghost respects_eq = { Prim.search (hashing, rules) };

    fn hash<H: Hasher>(&self, state: &mut H) {
        state.write(&self.bytes[..hashed_width(self.len)]);
    }
}
