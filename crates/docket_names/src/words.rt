//! Names and numbers, as they are written in a docket.
ghost use Rattle.std.specs.Prelude.{◌≡◌, ◌≤◌, ◌+◌, length, take, drop, true};
ghost use Rattle.std.specs.List.{list_all};
ghost use Rattle.docket_names.specs.Words as words;

// Each byte that may stand in a name stands in this table at the index of its own value. Every other index has a comma.
static NAME_BYTES: [u8; 256] = *b"\
    ,,,,,,,,,,,,,,,,,,,,,,,,,,,,,,,,\
    ,,,,,,,,,,,,,-.,0123456789,,,,,,\
    ,ABCDEFGHIJKLMNOPQRSTUVWXYZ,,,,_\
    ,abcdefghijklmnopqrstuvwxyz,,,,,\
    ,,,,,,,,,,,,,,,,,,,,,,,,,,,,,,,,\
    ,,,,,,,,,,,,,,,,,,,,,,,,,,,,,,,,\
    ,,,,,,,,,,,,,,,,,,,,,,,,,,,,,,,,\
    ,,,,,,,,,,,,,,,,,,,,,,,,,,,,,,,,";

// Whether the byte is an ASCII letter, an ASCII digit, `-`, `_` or `.`.
fn is_name_byte(byte: u8) -> bool
    ensures { result ≡ words.is_name_byte byte }
{
    NAME_BYTES[byte as usize] != b','
}

// Whether the four bytes of the text from byte `i` on may all stand in a name.
#[inline(always)]
fn has_four_at(text: &[u8], i: usize) -> bool
    requires { i + 4 ≤ length text.now }
    ensures { result ≡ list_all words.is_name_byte (take 4 (drop i text.now)) }
{
    let first_fits = is_name_byte(text[i]);
    let second_fits = is_name_byte(text[i + 1]);
    let third_fits = is_name_byte(text[i + 2]);
    let fourth_fits = is_name_byte(text[i + 3]);
    first_fits & second_fits & third_fits & fourth_fits
}

// Whether each byte of the text may stand in a name, tested one byte after another.
fn has_name_bytes_by_one(text: &[u8]) -> bool
    ensures { result ≡ list_all words.is_name_byte text.now }
{
    text.iter().all(|byte| is_name_byte(*byte))
}

// Whether each byte of the text may stand in a name, tested four bytes at a time.
fn has_name_bytes(text: &[u8]) -> bool
    ensures { result ≡ list_all words.is_name_byte text.now }
{
    let groups_of_four = text.len() / 4;
    for k in 0..groups_of_four {
        if !has_four_at(text, k * 4) {
            return false;
        }
    }
    has_name_bytes_by_one(&text[groups_of_four * 4..])
}

/// Whether the text has the form of a name: 1 to 32 characters, each a letter, a digit, `-`, `_` or `.`.
#[tactic(auto, unfolding(crate::specs::Words::is_name))]
pub fn is_name(text: &[u8]) -> bool
    ensures { result ≡ words.is_name text.now }
{
    1 <= text.len() && text.len() <= 32 && has_name_bytes(text)
}

// Whether each byte is an ASCII digit.
fn has_digits(text: &[u8]) -> bool
    ensures { result ≡ list_all words.is_digit text.now }
{
    text.iter().all(|byte| b'0' <= *byte && *byte <= b'9')
}

/// Whether the text is 1 to 9 ASCII digits.
#[tactic(auto, unfolding(crate::specs::Words::is_number))]
pub fn is_number(text: &[u8]) -> bool
    ensures { result ≡ words.is_number text.now }
{
    1 <= text.len() && text.len() <= 9 && has_digits(text)
}

/// The number that at most 9 ASCII digits stand for.
pub fn digits_worth(digits: &[u8]) -> u32
    requires { words.is_number digits.now ≡ true }
    ensures { result ≡ words.digits_worth digits.now }
{
    let mut worth = 0;
    for digit in digits {
        worth = worth * 10 + (*digit - b'0') as u32;
    }
    worth
}

/// The number that 1 to 9 ASCII digits stand for.
#[tactic(auto, unfolding(crate::specs::Words::number_of))]
pub fn number_of(text: &[u8]) -> Option<u32>
    ensures { result ≡ words.number_of text.now }
{
    if is_number(text) {
        Some(digits_worth(text))
    } else {
        None
    }
}
