//! The climb from a leaf to the root.

ghost use Rattle.std.specs.Prelude.{◌≡◌, ◌↔◌, Some, IsTrue};
ghost use Rattle.seal.specs.Tree.{opened};

use crate::hashes::{node_of, published};

/// Whether the hash of a leaf opens this published root by this path. The leaf stands at place `leaf_index` of a tree
/// with `leaf_count` leaves. The answer is no if the place is not below the count, or if the path has a wrong length.
pub fn opens(
    root: &[u8; 32],
    leaf_count: usize,
    leaf_index: usize,
    leaf: &[u8; 32],
    path: &[[u8; 32]],
) -> bool
    ensures { IsTrue result ↔ (opened leaf_index leaf_count leaf.now path.now ≡ Some root.now) }
{
    if leaf_index >= leaf_count {
        return false;
    }
    let mut place = leaf_index;
    let mut nodes = leaf_count;
    let mut hash = *leaf;
    let mut used_hashes = 0;
    while nodes > 1 {
        if place % 2 == 1 {
            if used_hashes >= path.len() {
                return false;
            }
            hash = node_of(&path[used_hashes], &hash);
            used_hashes += 1;
        } else if place + 1 < nodes {
            if used_hashes >= path.len() {
                return false;
            }
            hash = node_of(&hash, &path[used_hashes]);
            used_hashes += 1;
        }
        place /= 2;
        nodes = nodes / 2 + nodes % 2;
    }
    used_hashes == path.len() && published(leaf_count as u64, &hash) == *root
}
