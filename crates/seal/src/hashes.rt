//! The hashes of a tree: that of a leaf with its salt, and that of a node over two hashes. The salt makes it
//! impossible to guess a leaf from its hash.

ghost use Rattle.std.specs.Prelude.{◌≡◌, ◌∷◌, ◌++◌};
ghost use Rattle.std.specs.Int.{w64, to_be_bytes};
ghost use Rattle.sha2.specs.Sha256.{sha256};
ghost use Rattle.seal.specs.Hashes.{node};
ghost use Rattle.seal.specs.Hashes as hashes;
ghost use Rattle.seal.specs.Tree.{seal_hash};

use sha2::{Digest, Sha256};

/// The salt of a leaf: the digest of the secret, the tree's tag and the place of the leaf, counted from 0.
pub fn salt(secret: &[u8; 32], tag: u8, leaf_index: u64) -> [u8; 32]
    ensures { result ≡ sha256 (secret.now ++ tag ∷ to_be_bytes w64 leaf_index) }
{
    let mut hasher = Sha256::new();
    hasher.update(&secret[..]);
    hasher.update(&[tag][..]);
    hasher.update(&leaf_index.to_be_bytes()[..]);
    hasher.finalize()
}

/// The hash of a leaf: the digest of the byte 0, the salt and the text.
pub fn leaf_hash(salt: &[u8; 32], text: &[u8]) -> [u8; 32]
    ensures { result ≡ hashes.leaf_hash (record { salt = salt.now; text = text.now }) }
{
    let mut hasher = Sha256::new();
    hasher.update(&[0u8][..]);
    hasher.update(&salt[..]);
    hasher.update(text);
    hasher.finalize()
}

// The hash of a node over two hashes: the digest of the byte 1 and these two hashes.
pub(crate) fn node_of(left: &[u8; 32], right: &[u8; 32]) -> [u8; 32]
    ensures { result ≡ node left.now right.now }
{
    let mut hasher = Sha256::new();
    hasher.update(&[1u8][..]);
    hasher.update(&left[..]);
    hasher.update(&right[..]);
    hasher.finalize()
}

/// The published root of a tree with this many leaves: the digest of the byte 2, the count and the top of the tree.
pub fn published(leaf_count: u64, top: &[u8; 32]) -> [u8; 32]
    ensures { result ≡ seal_hash leaf_count top.now }
{
    let mut hasher = Sha256::new();
    hasher.update(&[2u8][..]);
    hasher.update(&leaf_count.to_be_bytes()[..]);
    hasher.update(&top[..]);
    hasher.finalize()
}
