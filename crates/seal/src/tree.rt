//! A tree that is stored whole. One vector has all levels of the tree, and each path is read from this vector.

ghost use Rattle.std.specs.Prelude.{◌≡◌, ◌<◌, ◌≤◌, ◌++◌, ℕ, List, length, take, drop, vec_len, IfOk, OnOk};
ghost use Rattle.seal.specs.Tree.{pair_up, all_levels, path_of};
ghost use Rattle.seal.specs.Tree as tree;

use crate::hashes::node_of;
use sha2::{Digest, Sha256};
use std::alloc::{AllocError, Global};
use std::marker::Model;

/// A tree over leaf hashes. Clauses see the tree as the list of its leaf hashes.
#[derive(Drop)]
pub struct Tree {
    leaf_count: usize,
    // All levels one after another: the leaf hashes first, and the root last.
    nodes: Vec<[u8; 32]>,
}

impl Model for Tree {
    ghost use Rattle.std.specs.Prelude.{◌≡◌, ◌≤◌, ℕ, List, length, take};
    ghost use Rattle.seal.specs.Tree.{all_levels};

    ghost Value = { List (List ℕ) };

    ghost view = { λ t. take t.leaf_count t.nodes.items };

    ghost invariant = { λ t. (t.leaf_count ≤ length t.nodes.items)
        × (t.nodes.items ≡ all_levels (take t.leaf_count t.nodes.items)) };
}

// Appends the level above the last one, which begins at place `level_start`.
fn push_parents(nodes: &mut Vec<[u8; 32]>, level_start: usize) -> Result<(), AllocError>
    requires { level_start ≤ vec_len nodes.old }
    ensures { OnOk result
        (nodes.new.items ≡ nodes.old.items ++ pair_up (drop level_start nodes.old.items)) }
{
    let node_count = nodes.len() - level_start;
    for k in 0..node_count / 2 {
        let parent = node_of(&nodes[level_start + 2 * k], &nodes[level_start + 2 * k + 1]);
        nodes.push(parent)?;
    }
    if node_count % 2 == 1 {
        let last_node = nodes[level_start + node_count - 1];
        nodes.push(last_node)?;
    }
    Ok(())
}

impl Tree {
    /// The tree over these leaf hashes. The tree needs memory for two hashes for each leaf, and for one hash for each
    /// level. The only error is out of memory.
    pub fn new(alloc: Global, hashes: &[[u8; 32]]) -> Result<Tree, AllocError>
        ensures { IfOk result (λ tree_leaves. tree_leaves ≡ hashes.now) }
    {
        let mut nodes = hashes.to_vec(alloc)?;
        let mut level_start = 0;
        while nodes.len() - level_start > 1 {
            let next_start = nodes.len();
            push_parents(&mut nodes, level_start)?;
            level_start = next_start;
        }
        Ok(Tree {
            leaf_count: hashes.len(),
            nodes,
        })
    }

    /// The root of the tree. The root of a tree without leaves is the digest of no bytes.
    pub fn root(&self) -> [u8; 32]
        ensures { result ≡ tree.root self.now }
    {
        match self.nodes.last() {
            Some(top) => *top,
            None => Sha256::digest(&[][..]),
        }
    }

    /// The path by which the leaf at place `leaf_index` climbs to the root: the siblings on the way, the lowest first.
    /// The only error is out of memory.
    pub fn opening(&self, alloc: Global, leaf_index: usize) -> Result<Vec<[u8; 32]>, AllocError>
        requires { leaf_index < length self.now }
        ensures { IfOk result (λ path. path.items ≡ path_of leaf_index self.now) }
    {
        let mut path = Vec::new(alloc);
        let mut level_start = 0;
        let mut node_count = self.leaf_count;
        let mut place = leaf_index;
        while node_count > 1 {
            if place % 2 == 1 {
                path.push(self.nodes[level_start + place - 1])?;
            } else if place + 1 < node_count {
                path.push(self.nodes[level_start + place + 1])?;
            }
            level_start += node_count;
            place /= 2;
            node_count = node_count / 2 + node_count % 2;
        }
        Ok(path)
    }
}
