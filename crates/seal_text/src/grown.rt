//! A tree with the texts of its leaves.
ghost use Rattle.std.specs.Prelude.{◌≡◌, ◌<◌, IfOk, OnOk, length};
ghost use Rattle.records.specs.Lines.{Grows};
ghost use Rattle.seal.specs.Tree as tree;
ghost use Rattle.seal_text.specs.Sealed.{root_row, opening_row, path_fields, part_text, word_of};
ghost use Rattle.seal_text.specs.Grown.{IsGrown, texts_in};

use crate::grow::{put, put_digest, put_number, put_row};
use crate::leaves::{Section, leaf_hashes};
use seal::{Tree, published, salt};
use std::alloc::{AllocError, Global};

/// A tree with the texts of its leaves.
#[derive(Drop)]
pub(crate) struct TextTree {
    /// Which of a docket's two trees this is.
    pub(crate) section: Section,
    /// The texts of the tree's leaves.
    pub(crate) leaf_texts: Vec<Vec<u8>>,
    /// The tree.
    pub(crate) tree: Tree,
}

// Adds the row of a published root.
fn put_root_row(
    alloc: Global,
    rows_text: &mut Vec<u8>,
    section: Section,
    leaf_count: usize,
    root: &[u8; 32],
) -> Result<(), AllocError>
    ensures { OnOk result
        (Grows rows_text.old rows_text.new (root_row section leaf_count root.now)) }
{
    let mut number_buffer = itoa::Buffer::new();
    let count_digits = number_buffer.format(leaf_count).as_bytes();
    let root_digits = hex::encode(alloc, *root)?;
    put_row(
        alloc,
        rows_text,
        &[section.word(), count_digits, root_digits.as_bytes()],
    )
}

// Adds the hashes of a path, and the end of its row.
fn put_path(alloc: Global, rows_text: &mut Vec<u8>, path: &[[u8; 32]]) -> Result<(), AllocError>
    ensures { OnOk result (Grows rows_text.old rows_text.new (path_fields path.now)) }
{
    for k in 0..path.len() {
        put_digest(alloc, rows_text, &path[k])?;
    }
    put(rows_text, b"\n")
}

// Adds the word that names the tree in its rows.
fn put_word(rows_text: &mut Vec<u8>, section: Section) -> Result<(), AllocError>
    ensures { OnOk result (Grows rows_text.old rows_text.new (word_of section)) }
{
    put(rows_text, section.word())
}

// Adds the row of an opening.
fn put_opening(
    alloc: Global,
    rows_text: &mut Vec<u8>,
    section: Section,
    leaf_index: usize,
    salt: &[u8; 32],
    path: &[[u8; 32]],
) -> Result<(), AllocError>
    ensures { OnOk result
        (Grows rows_text.old rows_text.new (opening_row section leaf_index salt.now path.now)) }
{
    put(rows_text, b"opens,")?;
    put_word(rows_text, section)?;
    put(rows_text, b",")?;
    put_number(rows_text, leaf_index)?;
    put_digest(alloc, rows_text, salt)?;
    put_path(alloc, rows_text, path)
}

impl TextTree {
    /// The tree over these texts.
    pub(crate) fn new(
        alloc: Global,
        secret: &[u8; 32],
        section: Section,
        leaf_texts: Vec<Vec<u8>>,
    ) -> Result<TextTree, AllocError>
        ensures grown { IfOk result (IsGrown secret.now) }
        ensures section { IfOk result (λ text_tree. text_tree.section ≡ section) }
        ensures texts { IfOk result (λ text_tree. text_tree.leaf_texts.items ≡ leaf_texts.items) }
    {
        let hashes = leaf_hashes(alloc, secret, section, leaf_texts.as_slice())?;
        let tree = Tree::new(alloc, hashes.as_slice())?;
        Ok(TextTree {
            section,
            leaf_texts,
            tree,
        })
    }

    /// Adds the row of the tree's root.
    pub(crate) fn put_root(&self, alloc: Global, rows_text: &mut Vec<u8>) -> Result<(), AllocError>
        ensures { OnOk result (Grows rows_text.old rows_text.new
            (root_row self.now.section (length self.now.leaf_texts.items)
            (tree.seal_hash (length self.now.leaf_texts.items) (tree.root self.now.tree)))) }
    {
        let root = published(self.leaf_texts.len() as u64, &self.tree.root());
        put_root_row(alloc, rows_text, self.section, self.leaf_texts.len(), &root)
    }

    /// Adds the part of a receipt about this tree: the tree's root, the opening of a leaf, and the
    /// leaf's text.
    pub(crate) fn put_part(
        &self,
        alloc: Global,
        rows_text: &mut Vec<u8>,
        secret: &[u8; 32],
        leaf_index: usize,
    ) -> Result<(), AllocError>
        requires grown { IsGrown secret.now self.now }
        requires index { leaf_index < length self.now.leaf_texts.items }
        ensures { OnOk result (Grows rows_text.old rows_text.new
            (part_text secret.now self.now.section (texts_in self.now) leaf_index)) }
    {
        self.put_root(alloc, rows_text)?;
        let salt = salt(secret, self.section.tag(), leaf_index as u64);
        let path = self.tree.opening(alloc, leaf_index)?;
        put_opening(
            alloc,
            rows_text,
            self.section,
            leaf_index,
            &salt,
            path.as_slice(),
        )?;
        let leaf_texts = self.leaf_texts.as_slice();
        put(rows_text, leaf_texts[leaf_index].as_slice())
    }
}
