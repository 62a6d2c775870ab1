//! Hash trees over SHA-256: the root of a tree, the path that opens the root for a leaf, and the check of such a path.
#![tactic(auto)]

mod climb;
mod hashes;
mod laws;
mod levels;
mod tree;

pub use climb::opens;
pub use hashes::{leaf_hash, published, salt};
pub use laws::{law_complete, law_hashed_bytes, law_one_docket, law_one_leaf, law_receipt};
pub use levels::root;
pub use tree::Tree;

#[cfg(test)]
mod tests;
