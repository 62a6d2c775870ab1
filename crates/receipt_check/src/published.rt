//! What an office publishes of a tree.
ghost use Rattle.std.specs.Prelude.{◌≡◌, nat_eq, option_map, position};
ghost use Rattle.receipt_check.specs.Published.{published_in, row_of};

use crate::opening::{digest_of, plain_number};

/// What was published of a tree: how many members there are, and the root.
#[derive(Clone, Copy, Debug, PartialEq, Eq)]
pub struct Published {
    /// The number of members.
    pub members: u32,
    /// The root.
    pub root: [u8; 32],
}

// The place of the first comma.
fn comma_in(text: &[u8]) -> Option<usize>
    ensures { result ≡ position (nat_eq 44) text.now }
{
    text.iter().position(|byte| 44 == *byte)
}

/// The number of members and the root that a text writes: a number, a comma and 64 small hexadecimal digits.
#[tactic(auto, unfolding(crate::specs::Published::published_in))]
pub fn published_of(text: &[u8]) -> Option<Published>
    ensures { option_map row_of result ≡ published_in text.now }
{
    let comma_index = comma_in(text)?;
    let members = plain_number(&text[..comma_index])?;
    let root = digest_of(&text[comma_index + 1..])?;
    Some(Published { members, root })
}
