//! From texts to leaves.
ghost use Rattle.std.specs.Prelude.{◌≡◌, ◌≤◌, ◌^◌, ℕ, List, IfOk, length, map};
ghost use Rattle.std.specs.Global.{Vec};
ghost use Rattle.seal_text.specs.Sealed.{tag_of, word_of, hashes_of};

use seal::{leaf_hash, salt};
use std::alloc::{AllocError, Global};

/// One of the two trees of a docket.
#[derive(Clone, Copy, Debug, PartialEq, Eq)]
pub enum Section {
    /// The lists that members handed in.
    Lists,
    /// The result of each member, and the reasons.
    Outcome,
}

impl Section {
    /// The byte that makes the salts of the two trees different.
    pub(crate) fn tag(self) -> u8
        ensures { result ≡ tag_of self }
    {
        match self {
            Section::Lists => b'L',
            Section::Outcome => b'R',
        }
    }

    /// The word that names the tree in its rows.
    pub(crate) fn word(self) -> &'static [u8]
        ensures { result.now ≡ word_of self }
    {
        match self {
            Section::Lists => b"lists",
            Section::Outcome => b"result",
        }
    }
}

/// The hashes of the leaves of these texts.
pub(crate) fn leaf_hashes(
    alloc: Global,
    secret: &[u8; 32],
    section: Section,
    leaf_texts: &[Vec<u8>],
) -> Result<Vec<[u8; 32]>, AllocError>
    ensures { IfOk result (λ hashes.
        hashes.items ≡ hashes_of secret.now section (map (λ (v : Vec ℕ). v.items) leaf_texts.now)) }
{
    let mut hashes = Vec::new(alloc);
    for i in 0..leaf_texts.len() {
        let salt = salt(secret, section.tag(), i as u64);
        hashes.push(leaf_hash(&salt, leaf_texts[i].as_slice()))?;
    }
    Ok(hashes)
}
