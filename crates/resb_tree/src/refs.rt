//! The parts of a resource, looked at where they stand in the words of a bundle.
ghost use Rattle.std.specs.Prelude.{◌≡◌, ◌+◌, ◌<◌, ◌≤◌, length, slice_get, take, Some, IfOk};
ghost use Rattle.std.specs.Str.{bytes_eq};
ghost use Rattle.resb_tree.specs.BodyView.{told};
ghost use Rattle.resb_tree.specs.Inside.Forms.{items_end};
ghost use Rattle.resb_tree.specs.Fields.{first_with};
ghost use Rattle.resb_tree.specs.Inside.Parts.{items_count, entries_end, entries_count};
ghost use Rattle.resb_tree.specs.Inside.Places.{items_there, AreItems, entries_there, AreEntries};

use crate::body::BodyWords;
use crate::counts::{entries_count, item_behind, items_count};
use crate::forms::{ArrayForm, TableForm};
use crate::in_place::ResourceRef;
use crate::key_places::{key_bytes, key_is};
use crate::places::entry_at;
use crate::words::{bytes_from, copy_units, unit_at, units_from};
use sqlite_items::Items;
use std::alloc::{AllocError, Global};
use std::marker::Model;

/// The units of a text of a bundle.
#[derive(Drop)]
pub struct TextRef<'a> {
    pub(crate) words: &'a [u32],
    pub(crate) from: usize,
    pub(crate) count: usize,
}

impl<'a> Model for TextRef<'a> {
    ghost use Rattle.std.specs.Prelude.{ℕ, List, ◌+◌, ◌*◌, ◌≤◌, length};
    ghost use Rattle.resb_tree.specs.Words.{run, unit_in};

    ghost Value = { List ℕ };

    ghost view = { λ r. run (unit_in r.words.now) r.from r.count };

    ghost invariant = { λ r. r.from + r.count ≤ 2 * length r.words.now };
}

/// The bytes of a list of bytes of a bundle.
#[derive(Drop)]
pub struct BytesRef<'a> {
    pub(crate) words: &'a [u32],
    pub(crate) from: usize,
    pub(crate) count: usize,
}

impl<'a> Model for BytesRef<'a> {
    ghost use Rattle.std.specs.Prelude.{ℕ, List, ◌+◌, ◌*◌, ◌≤◌, length};
    ghost use Rattle.resb_tree.specs.Words.{run, byte_in};

    ghost Value = { List ℕ };

    ghost view = { λ r. run (byte_in r.words.now) r.from r.count };

    ghost invariant = { λ r. r.from + r.count ≤ 4 * length r.words.now };
}

/// A key of a bundle.
#[derive(Drop)]
pub struct KeyRef<'a> {
    pub(crate) body: &'a BodyWords<'a>,
    pub(crate) place: usize,
}

impl<'a> Model for KeyRef<'a> {
    ghost use Rattle.std.specs.Prelude.{ℕ, List};
    ghost use Rattle.resb_tree.specs.BodyView.{told};
    ghost use Rattle.resb_tree.specs.Inside.KeyPlaces.{key_there, IsKey};

    ghost Value = { List ℕ };

    ghost view = { λ r. key_there (told r.body.now) r.place };

    ghost invariant = { λ r. IsKey (told r.body.now) r.place };
}

/// The items of an array of a bundle.
#[derive(Drop)]
pub struct ItemsRef<'a> {
    pub(crate) body: &'a BodyWords<'a>,
    pub(crate) from: usize,
    pub(crate) count: usize,
    pub(crate) form: ArrayForm,
    pub(crate) levels: u8,
}

impl<'a> Model for ItemsRef<'a> {
    ghost use Rattle.std.specs.Prelude.{List};
    ghost use Rattle.resb_tree.specs.declared.resource.Resource.{Resource};
    ghost use Rattle.resb_tree.specs.contracts.resource.Resource as e;
    ghost use Rattle.std.specs.Coded.{codes};

    ghost Value = { List Resource };

    ghost coded = { Prim.hlevel (codes, e.the_row.coded) };

    ghost use Rattle.resb_tree.specs.BodyView.{told};
    ghost use Rattle.resb_tree.specs.Inside.Places.{items_there, AreItems};

    ghost view = { λ r. items_there (told r.body.now) r.form r.levels r.from r.count };

    ghost invariant = { λ r. AreItems (told r.body.now) r.form r.levels r.from r.count };
}

/// The entries of a table of a bundle.
#[derive(Drop)]
pub struct EntriesRef<'a> {
    pub(crate) body: &'a BodyWords<'a>,
    pub(crate) v: usize,
    pub(crate) count: usize,
    pub(crate) form: TableForm,
    pub(crate) levels: u8,
}

impl<'a> Model for EntriesRef<'a> {
    ghost use Rattle.std.specs.Prelude.{ℕ, List};
    ghost use Rattle.resb_tree.specs.declared.resource.Resource.{Resource};
    ghost use Rattle.resb_tree.specs.contracts.resource.Resource as e;
    ghost use Rattle.std.specs.Coded.{codes};

    ghost Value = { List (List ℕ × Resource) };

    ghost coded = { Prim.hlevel (codes, e.the_row.coded) };

    ghost use Rattle.resb_tree.specs.BodyView.{told};
    ghost use Rattle.resb_tree.specs.Inside.Places.{entries_there, AreEntries};

    ghost view = { λ r. entries_there (told r.body.now) r.form r.levels r.v r.count };

    ghost invariant = { λ r. AreEntries (told r.body.now) r.form r.levels r.v r.count };
}

/// The items of the array at `v`.
pub fn items_from<'a>(
    body: &'a BodyWords<'a>,
    form: ArrayForm,
    levels: u8,
    v: usize,
) -> ItemsRef<'a>
    requires low { v < items_end form (told body.now) }
    requires are { let count = items_count form (told body.now) v in
        AreItems (told body.now) form levels (v + 1) count }
    ensures { let count = items_count form (told body.now) v in
        result ≡ items_there (told body.now) form levels (v + 1) count }
{
    let count = items_count(body, form, v);
    ItemsRef {
        body,
        from: v + 1,
        count,
        form,
        levels,
    }
}

/// The entries of the table at `v`.
pub fn entries_from<'a>(
    body: &'a BodyWords<'a>,
    form: TableForm,
    levels: u8,
    v: usize,
) -> EntriesRef<'a>
    requires low { v < entries_end form (told body.now) }
    requires are { let b = told body.now in AreEntries b form levels v (entries_count form b v) }
    ensures { let count = entries_count form (told body.now) v in
        result ≡ entries_there (told body.now) form levels v count }
{
    let count = entries_count(body, form, v);
    EntriesRef {
        body,
        v,
        count,
        form,
        levels,
    }
}

/// The value of the first entry of a table with a key.
#[tactic(auto, using(crate::proofs::Runs::run_next, crate::proofs::Runs::run_none))]
pub fn first_with<'a>(
    body: &'a BodyWords<'a>,
    form: TableForm,
    levels: u8,
    v: usize,
    count: usize,
    key: &[u8],
) -> Option<ResourceRef<'a>>
    requires { AreEntries (told body.now) form levels v count }
    ensures { result ≡ first_with key.now (entries_there (told body.now) form levels v count) }
{
    for k in 0..count {
        let (place, item) = entry_at(*body, form, v, count, k);
        if key_is(body, place, key) {
            return Some(ResourceRef { body, item, levels });
        }
    }
    None
}

impl<'a> TextRef<'a> {
    /// How many units it has.
    #[tactic(auto, using(crate::proofs::Runs::length_run))]
    pub fn len(&self) -> usize
        ensures { result ≡ length self.now }
    {
        self.count
    }

    /// The unit at a place, counted from 0.
    #[tactic(auto, using(crate::proofs::Runs::run_get, crate::proofs::Runs::run_past))]
    pub fn get(&self, at: usize) -> Option<u16>
        ensures { result ≡ slice_get self.now at }
    {
        if at >= self.count {
            return None;
        }
        Some(unit_at(self.words, self.from + at))
    }

    /// A copy of its units.
    pub fn to_items(&self, alloc: Global) -> Result<Items<u16>, AllocError>
        ensures { IfOk result (λ items. items ≡ self.now) }
    {
        units_from(alloc, self.words, self.from, self.count)
    }

    /// Copies its units to the front of a slice that has room for them.
    #[tactic(auto, using(crate::proofs::Runs::length_run))]
    pub fn copy_to(&self, units: &mut [u16])
        requires { length self.now ≤ length units.old }
        ensures { take (length self.now) units.new ≡ self.now }
    {
        copy_units(self.words, self.from, self.count, units);
    }
}

impl<'a> BytesRef<'a> {
    /// A copy of its bytes.
    pub fn to_items(&self, alloc: Global) -> Result<Items<u8>, AllocError>
        ensures { IfOk result (λ items. items ≡ self.now) }
    {
        bytes_from(alloc, self.words, self.from, self.count)
    }
}

impl<'a> KeyRef<'a> {
    /// Whether it has these bytes.
    #[inline(always)]
    pub fn is(&self, bytes: &[u8]) -> bool
        ensures { result ≡ bytes_eq self.now bytes.now }
    {
        key_is(self.body, self.place, bytes)
    }

    /// A copy of its bytes.
    pub fn to_items(&self, alloc: Global) -> Result<Items<u8>, AllocError>
        ensures { IfOk result (λ items. items ≡ self.now) }
    {
        key_bytes(alloc, *self.body, self.place)
    }
}

impl<'a> ItemsRef<'a> {
    /// How many items the array has.
    #[tactic(auto, using(crate::proofs::Runs::length_run))]
    pub fn len(&self) -> usize
        ensures { result ≡ length self.now }
    {
        self.count
    }

    /// The item at a place, counted from 0.
    #[tactic(auto, using(crate::proofs::Runs::run_get, crate::proofs::Runs::length_run))]
    pub fn at(&self, place: usize) -> ResourceRef<'a>
        requires { place < length self.now }
        ensures { slice_get self.now place ≡ Some result }
    {
        let body = self.body;
        ResourceRef {
            body,
            item: item_behind(body, self.form, self.from, place),
            levels: self.levels,
        }
    }
}

impl<'a> EntriesRef<'a> {
    /// How many entries the table has.
    #[tactic(auto, using(crate::proofs::Runs::length_run))]
    pub fn len(&self) -> usize
        ensures { result ≡ length self.now }
    {
        self.count
    }

    /// The entry at a place, counted from 0.
    #[tactic(auto, using(crate::proofs::Runs::run_get, crate::proofs::Runs::length_run))]
    pub fn at(&self, place: usize) -> (KeyRef<'a>, ResourceRef<'a>)
        requires { place < length self.now }
        ensures { slice_get self.now place ≡ Some result }
    {
        let body = self.body;
        let (key, item) = entry_at(*body, self.form, self.v, self.count, place);
        let name = KeyRef { body, place: key };
        let value = ResourceRef {
            body,
            item,
            levels: self.levels,
        };
        (name, value)
    }
}
