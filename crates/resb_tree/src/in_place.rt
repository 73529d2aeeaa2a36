//! The tree of a bundle, looked at where it stands in the bundle's words: it is checked whole once, and not copied.
ghost use Rattle.std.specs.Prelude.{◌≡◌, IfOk};
ghost use Rattle.resb_tree.specs.Header.{tree_of};
ghost use Rattle.resb_tree.specs.Reading.{Gives};
ghost use Rattle.resb_tree.specs.Contents.{text_in, bytes_in, integers_in, items_in, entries_in};
ghost use Rattle.resb_tree.specs.Contents.{index_in, signed_in};
ghost use Rattle.resb_tree.specs.Fields.{field_in, seen};

use crate::body::BodyWords;
use crate::checking::{DEPTH, STEP, check_root};
use crate::counts::count_there;
use crate::error::ResbError;
use crate::forms::{array_form, table_form};
use crate::leaves::short_span;
use crate::reading::body_of;
use crate::refs::{BytesRef, EntriesRef, ItemsRef, TextRef, entries_from, first_with, items_from};
use crate::resource::{Resource, sign_extended};
use crate::trees::tree_of;
use std::alloc::{AllocError, Global};
use std::marker::Model;

/// A bundle whose words denote a tree, seen as that tree.
#[derive(Drop)]
pub struct Bundle<'a> {
    body: BodyWords<'a>,
}

impl<'a> Model for Bundle<'a> {
    ghost use Rattle.resb_tree.specs.declared.resource.Resource.{Resource};
    ghost use Rattle.resb_tree.specs.contracts.resource.Resource as e;
    ghost use Rattle.std.specs.Coded.{codes};

    ghost Value = { Resource };

    ghost coded = { Prim.hlevel (codes, e.the_row.coded) };

    ghost use Rattle.resb_tree.specs.BodyView.{told};
    ghost use Rattle.resb_tree.specs.Inside.Places.{root_there, IsRoot};

    ghost view = { λ b. root_there (told b.body) };

    ghost invariant = { λ b. IsRoot (told b.body) };
}

/// A resource of a bundle, where it stands.
#[derive(Drop)]
pub struct ResourceRef<'a> {
    pub(crate) body: &'a BodyWords<'a>,
    pub(crate) item: u32,
    pub(crate) levels: u8,
}

impl<'a> Model for ResourceRef<'a> {
    ghost use Rattle.resb_tree.specs.declared.resource.Resource.{Resource};
    ghost use Rattle.resb_tree.specs.contracts.resource.Resource as e;
    ghost use Rattle.std.specs.Coded.{codes};

    ghost Value = { Resource };

    ghost coded = { Prim.hlevel (codes, e.the_row.coded) };

    ghost use Rattle.resb_tree.specs.BodyView.{told};
    ghost use Rattle.resb_tree.specs.Inside.Places.{tree_there, IsTree};

    ghost view = { λ r. tree_there (told r.body.now) r.levels r.item };

    ghost invariant = { λ r. IsTree (told r.body.now) r.levels r.item };
}

impl<'a> Bundle<'a> {
    /// The bundle of these words, once all of its tree has been checked.
    #[tactic(auto, unfolding(crate::specs::Header::tree_of))]
    pub fn open(alloc: Global, words: &'a [u32]) -> Result<Bundle<'a>, ResbError>
        ensures { Gives (λ x. x) result (tree_of words.now) }
    {
        let body = body_of(words)?;
        check_root(alloc, body, 8 * words.len())?;
        Ok(Bundle { body })
    }

    /// Its root.
    pub fn root(&self) -> ResourceRef<'_>
        ensures { result ≡ self.now }
    {
        let body = &self.body;
        ResourceRef {
            body,
            item: body.words[0],
            levels: DEPTH,
        }
    }
}

impl<'a> ResourceRef<'a> {
    /// The units of a text.
    #[tactic(auto, using(crate::proofs::LeafParts::seen_text))]
    pub fn text(&self) -> Option<TextRef<'a>>
        ensures { result ≡ text_in self.now }
    {
        let body = self.body;
        let v = (self.item % STEP) as usize;
        match self.item / STEP {
            0 => {
                let count = count_there(body, v);
                Some(TextRef {
                    words: body.words,
                    from: 2 * (v + 1),
                    count,
                })
            }
            6 => {
                let (from, count) = short_span(body, v)?;
                Some(TextRef {
                    words: body.words,
                    from: 2 * body.keys_end + from,
                    count,
                })
            }
            _ => None,
        }
    }

    /// The bytes of a list of bytes.
    #[tactic(auto, using(crate::proofs::LeafParts::bytes_here, crate::proofs::LeafParts::bytes_none))]
    pub fn bytes(&self) -> Option<BytesRef<'a>>
        ensures { result ≡ bytes_in self.now }
    {
        if self.item / STEP != 1 {
            return None;
        }
        let body = self.body;
        let v = (self.item % STEP) as usize;
        let count = count_there(body, v);
        Some(BytesRef {
            words: body.words,
            from: 4 * (v + 1),
            count,
        })
    }

    /// The numbers of a list of integers, of 32 bits each.
    #[tactic(auto, using(crate::proofs::LeafParts::integers_here, crate::proofs::LeafParts::integers_none, crate::proofs::Runs::slice_run))]
    pub fn integers(&self) -> Option<&'a [u32]>
        ensures { seen result ≡ integers_in self.now }
    {
        if self.item / STEP != 14 {
            return None;
        }
        let words = self.body.words;
        let v = (self.item % STEP) as usize;
        let count = count_there(self.body, v);
        let values = &words[v + 1..v + 1 + count];
        Some(values)
    }

    /// The items of an array.
    #[tactic(auto, using(crate::proofs::Parts::seen_items))]
    pub fn items(&self) -> Option<ItemsRef<'a>>
        ensures { result ≡ items_in self.now }
    {
        let form = array_form(self.item / STEP)?;
        let v = (self.item % STEP) as usize;
        Some(items_from(self.body, form, self.levels - 1, v))
    }

    /// The entries of a table, in its order.
    #[tactic(auto, using(crate::proofs::Parts::seen_entries))]
    pub fn entries(&self) -> Option<EntriesRef<'a>>
        ensures { result ≡ entries_in self.now }
    {
        let form = table_form(self.item / STEP)?;
        let v = (self.item % STEP) as usize;
        Some(entries_from(self.body, form, self.levels - 1, v))
    }

    /// The low 28 bits of an integer, as a number from 0 to 268,435,455.
    #[tactic(auto, using(crate::proofs::LeafParts::index_here, crate::proofs::LeafParts::index_none))]
    pub fn index(&self) -> Option<u32>
        ensures { result ≡ index_in self.now }
    {
        if self.item / STEP != 7 {
            return None;
        }
        Some(self.item % STEP)
    }

    /// The low 28 bits of an integer, as a number from -134,217,728 to 134,217,727.
    pub fn signed(&self) -> Option<i32>
        ensures { result ≡ signed_in self.now }
    {
        let v = self.index()?;
        Some(sign_extended(v))
    }

    /// A table's value for a key, the first where the key stands more than once.
    pub fn field(&self, key: &[u8]) -> Option<ResourceRef<'a>>
        ensures { result ≡ field_in key.now self.now }
    {
        let found = self.entries()?;
        first_with(
            found.body,
            found.form,
            found.levels,
            found.v,
            found.count,
            key,
        )
    }

    /// A copy of it, with its children.
    pub(crate) fn to_tree(&self, alloc: Global) -> Result<Resource, AllocError>
        ensures { IfOk result (λ tree. tree ≡ self.now) }
    {
        tree_of(alloc, self.body, self.levels, self.item)
    }
}
