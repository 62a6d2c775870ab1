//! The root of a tree, computed level by level.

ghost use Rattle.std.specs.Prelude.{◌≡◌, IfOk};
ghost use Rattle.seal.specs.Tree.{pair_up};
ghost use Rattle.seal.specs.Tree as tree;

use crate::hashes::node_of;
use sha2::{Digest, Sha256};
use std::alloc::{AllocError, Global};

// Replaces a level by the level above it.
fn pair_level(level: &mut Vec<[u8; 32]>)
    ensures { level.new.items ≡ pair_up level.old.items }
{
    let hash_count = level.len();
    for k in 0..hash_count / 2 {
        level[k] = node_of(&level[2 * k], &level[2 * k + 1]);
    }
    if hash_count % 2 == 1 {
        level[hash_count / 2] = level[hash_count - 1];
    }
    level.truncate(hash_count / 2 + hash_count % 2);
}

/// The root of the tree over these leaf hashes. The root of a tree without leaves is the digest of no bytes. The only
/// error is out of memory.
pub fn root(alloc: Global, hashes: &[[u8; 32]]) -> Result<[u8; 32], AllocError>
    ensures { IfOk result (λ root_hash. root_hash ≡ tree.root hashes.now) }
{
    let mut level = hashes.to_vec(alloc)?;
    while level.len() > 1 {
        pair_level(&mut level);
    }
    Ok(match level.first() {
        Some(top) => *top,
        None => Sha256::digest(&[][..]),
    })
}
