ghost use Rattle.std.specs.Prelude.{◌≡◌, ◌≢◌, ℕ, ◌+◌, ◌*◌, ◌<◌, ◌≤◌, true, List, [], ◌∷◌, ◌++◌, map, sum_by, length, OnOk, IfOk, IfErr, Some};
ghost use Rattle.resb_tree.specs.Keys.{stands_in, distinct};
ghost use Rattle.resb.specs.Packing.{most_unit};
ghost use Rattle.resb.specs.Pool.{all_in, bare, words_end};
ghost use Rattle.resb.specs.Inside.KeyPlaces.{places_in};
ghost use Rattle.resb.specs.Plan.{most_words, Refuses};
ghost use Rattle.resb.specs.WrittenFiles.{most_of};
ghost use Rattle.resb.specs.Writing.{places_of};
ghost use Rattle.resb.specs.BadKeys.{all_keys};
ghost use Rattle.resb.specs.TreeKeys.{first_keys};

use crate::bundle::bundle_words;
use crate::key_pool::pool_of;
use crate::laying::{MOST_WORDS, integer_item, lay_bytes, lay_integers, lay_text};
use crate::measures::is_key;
use crate::parents::{Laying, push_array, push_table};
use crate::pool::KeyPool;
use resb_tree::ResbError;
use std::alloc::{AllocError, Global};

/// How deep a tree may be.
const DEPTH: u8 = 8;

/// The most that a tree may weigh: 8 times the most words.
const WEIGHT: usize = 8_388_608;

/// Whether each key has only bytes from 1 to 127.
fn are_keys(keys: &[&[u8]]) -> bool
    ensures { result ≡ all_keys (bare keys.now) }
{
    for key in keys {
        if !is_key(*key) {
            return false;
        }
    }
    true
}

/// Whether a key is one of these.
fn stands_in(key: &[u8], keys: &[&[u8]]) -> bool
    ensures { result ≡ stands_in key.now (bare keys.now) }
{
    for other in keys {
        if key == *other {
            return true;
        }
    }
    false
}

/// Whether no two keys are equal.
fn are_distinct(keys: &[&[u8]]) -> bool
    ensures { result ≡ distinct (bare keys.now) }
{
    for at in 0..keys.len() {
        if stands_in(keys[at], &keys[at + 1..]) {
            return false;
        }
    }
    true
}

/// Whether the pool has each of these keys.
fn are_known(keys: &[&[u8]], pool: &KeyPool<'_>) -> bool
    ensures { result ≡ all_in (bare keys.now) (bare pool.now.keys.items) }
{
    for key in keys {
        let Some(_place) = pool.find(*key) else {
            return false;
        };
    }
    true
}

/// What the bytes of keys leave of the weight.
fn without_keys(left: usize, keys: &[&[u8]]) -> Result<usize, ResbError>
    ensures rest { IfOk result (λ rest. rest + sum_by length (bare keys.now) ≡ left) }
    ensures err { IfErr result (Refuses (sum_by length (bare keys.now) ≤ left)) }
{
    let mut rest = left;
    for key in keys {
        if key.len() > rest {
            return Err(ResbError::TooLarge);
        }
        rest -= key.len();
    }
    Ok(rest)
}

/// Puts the places of keys behind the units.
fn push_places(keys: &[&[u8]], pool: &KeyPool<'_>, units: &mut Vec<u16>) -> Result<(), ResbError>
    ensures units { OnOk result
        (units.new.items ≡ units.old.items ++ map (places_in pool.now) (bare keys.now)) }
    ensures bound { OnOk result (most_of (map (places_in pool.now) (bare keys.now)) ≤ most_unit) }
    ensures err { IfErr result
        (Refuses (most_of (map (places_in pool.now) (bare keys.now)) ≤ most_unit)) }
{
    for key in keys {
        let at = pool.place(*key);
        if at > 65_535 {
            return Err(ResbError::TooLarge);
        }
        units.push(at as u16)?;
    }
    Ok(())
}

/// The levels of a resource with children of these levels.
fn level_over(levels: &[u8]) -> Result<u8, ResbError>
    ensures level { IfOk result (λ level. level ≡ 1 + most_of levels.now) }
    ensures bound { IfOk result (λ level. level ≤ 8) }
    ensures err { IfErr result (Refuses (most_of levels.now < 8)) }
{
    let mut deepest = 0;
    for level in levels {
        deepest = (*level).max(deepest);
    }
    if deepest >= DEPTH {
        return Err(ResbError::TooLarge);
    }
    Ok(deepest + 1)
}

/// Where the last `count` of resources begin, of which each has its levels.
fn first_of_last(count: usize, items: usize, levels: usize) -> Result<usize, ResbError>
    ensures value { IfOk result (λ kept. kept + count ≡ items) }
    ensures bound { IfOk result (λ kept. kept ≤ levels) }
    ensures err { IfErr result
        (λ e. (e ≡ ResbError.NoTree) × (items ≡ levels → items < count)) }
{
    if count > items || items != levels {
        return Err(ResbError::NoTree);
    }
    Ok(items - count)
}

/// The item of the one resource.
fn only_item(items: &[u32]) -> Result<u32, ResbError>
    ensures item { IfOk result (λ item. items.now ≡ item ∷ []) }
    ensures err { IfErr result (λ e. (e ≡ ResbError.NoTree) × (length items.now ≢ 1)) }
{
    if items.len() == 1 {
        return Ok(items[0]);
    }
    Err(ResbError::NoTree)
}

/// That the words stay within the limit.
fn check_room(base: usize, words: &Vec<u32>) -> Result<(), ResbError>
    requires { base ≤ most_words }
    ensures bound { OnOk result (base + length words.now.items ≤ most_words) }
    ensures err { IfErr result (Refuses (base + length words.now.items ≤ most_words)) }
{
    if words.len() > MOST_WORDS - base {
        return Err(ResbError::TooLarge);
    }
    Ok(())
}

/// Appends an item, and how many levels stand for it.
fn put(item: u32, level: u8, items: &mut Vec<u32>, levels: &mut Vec<u8>) -> Result<(), AllocError>
    ensures items { OnOk result (items.new.items ≡ items.old.items ++ item ∷ []) }
    ensures levels { OnOk result (levels.new.items ≡ levels.old.items ++ level ∷ []) }
{
    items.push(item)?;
    levels.push(level)?;
    Ok(())
}

/// Resources that are written as they are told, children before their parent: no tree of them is in memory.
///
/// It has a row of resources, of which none is a part of another. `text`, `bytes`, `integer` and `integers` put one more at
/// the end of the row; `array` and `table` make one of the last ones. `write` gives the words of the one that is left.
///
/// Each of these calls answers `TooLarge` where the resources have no room in a bundle, and `Memory` where memory runs out.
/// After an error nothing is known of the row.
#[derive(Drop)]
pub struct Draft<'k> {
    pool: KeyPool<'k>,
    /// The body word behind the keys.
    base: usize,
    laying: Laying,
    /// How many levels each resource of the row has.
    levels: Vec<u8>,
    /// What the resources leave of the most weight.
    left: usize,
    /// The greatest number of entries of a table.
    most: u16,
    ghost low: { base ≤ most_words },
}

impl<'k> Draft<'k> {
    ghost use Rattle.resb_tree.specs.declared.resource.Resource.{Resource};
    ghost use Rattle.resb_tree.specs.declared.resource.Resource.TheVariants as r;
    ghost use Rattle.resb_tree.specs.Header.{tree_of};
    ghost use Rattle.resb_tree.specs.Weight.{weight};
    ghost use Rattle.resb.specs.TreeKeys.{key_pool};
    ghost use Rattle.resb.specs.WrittenFiles.{written};
    ghost use Rattle.resb.specs.DraftRows.{Holds, Puts};
    ghost use Rattle.resb.specs.DraftParents.{MakesArray, MakesTable};
    ghost use Rattle.resb.specs.Drafts.{Unwritten};
    ghost use Rattle.resb.specs.Inside.Telling.{Names};

    /// An empty row. The keys are those of the tree that will be written, in the order in which a walk first meets them, an
    /// entry's key before its value; a key that stands here before does not count.
    ///
    /// `BadKey` where a key has a byte outside 1 to 127; `TooLarge` where a key begins past byte 65,535 of the body.
    pub fn new(alloc: Global, keys: &[&'k [u8]]) -> Result<Draft<'k>, ResbError>
        ensures { IfOk result (λ draft. Holds draft (first_keys [] (bare keys.now)) []) }
    {
        let pool = pool_of(alloc, keys)?;
        if !are_keys(pool.keys.as_slice()) {
            return Err(ResbError::BadKey);
        }
        Draft::over(alloc, pool)
    }

    /// An empty row behind the keys of a pool.
    pub(crate) fn over(alloc: Global, pool: KeyPool<'k>) -> Result<Draft<'k>, ResbError>
        requires near { most_of (places_of (bare pool.keys.items) 32) ≤ most_unit }
        requires good { all_keys (bare pool.keys.items) ≡ true }
        ensures holds { IfOk result (λ draft. Holds draft (bare pool.entry.keys.items) []) }
        ensures err { IfErr result
            (Refuses (words_end (bare pool.entry.keys.items) ≤ most_words)) }
    {
        let base = pool.words_end();
        if base > MOST_WORDS {
            return Err(ResbError::TooLarge);
        }
        Ok(Draft {
            pool,
            base,
            laying: Laying::new(alloc),
            levels: Vec::new(alloc),
            left: WEIGHT,
            most: 0,
        })
    }

    /// What a resource with so many parts of its own leaves of the weight.
    fn without(&self, parts: usize) -> Result<usize, ResbError>
        ensures room { OnOk result
            (self.now.base + length self.now.laying.words.items ≤ most_words) }
        ensures rest { IfOk result (λ rest. rest + (1 + parts) ≡ self.now.left) }
        ensures err { IfErr result (Refuses
            ((self.now.base + length self.now.laying.words.items ≤ most_words)
            × (1 + parts ≤ self.now.left))) }
    {
        check_room(self.base, &self.laying.words)?;
        if parts >= self.left {
            return Err(ResbError::TooLarge);
        }
        Ok(self.left - 1 - parts)
    }

    /// A text of UTF-16 units.
    pub fn text(&mut self, units: &[u16]) -> Result<(), ResbError>
        ensures { Puts self.old self.new (r.Text units.now) result }
    {
        let left = self.without(units.len())?;
        let item = lay_text(units, self.base, &mut self.laying.words)?;
        self.left = left;
        put(item, 1, &mut self.laying.items, &mut self.levels)?;
        Ok(())
    }

    /// A list of bytes.
    pub fn bytes(&mut self, bytes: &[u8]) -> Result<(), ResbError>
        ensures { Puts self.old self.new (r.Bytes bytes.now) result }
    {
        let left = self.without(bytes.len())?;
        let item = lay_bytes(bytes, self.base, &mut self.laying.words)?;
        self.left = left;
        put(item, 1, &mut self.laying.items, &mut self.levels)?;
        Ok(())
    }

    /// An integer of 28 bits. `TooLarge` also where it has more.
    pub fn integer(&mut self, value: u32) -> Result<(), ResbError>
        ensures { Puts self.old self.new (r.Integer value) result }
    {
        let left = self.without(0)?;
        let item = integer_item(value)?;
        self.left = left;
        put(item, 1, &mut self.laying.items, &mut self.levels)?;
        Ok(())
    }

    /// A list of integers.
    pub fn integers(&mut self, values: &[u32]) -> Result<(), ResbError>
        ensures { Puts self.old self.new (r.Integers values.now) result }
    {
        let left = self.without(values.len())?;
        let item = lay_integers(values, self.base, &mut self.laying.words)?;
        self.left = left;
        put(item, 1, &mut self.laying.items, &mut self.levels)?;
        Ok(())
    }

    /// Makes an array of the last `count` resources, its items. `NoTree` where the row has fewer; `TooLarge` also where the
    /// array is deeper than 8.
    pub fn array(&mut self, count: usize) -> Result<(), ResbError>
        ensures { MakesArray self.old self.new count result }
    {
        let kept = first_of_last(count, self.laying.items.len(), self.levels.len())?;
        let level = level_over(&self.levels.as_slice()[kept..])?;
        let left = self.without(0)?;
        let item = push_array(kept, self.base, &mut self.laying)?;
        self.levels.truncate(kept);
        self.left = left;
        put(item, level, &mut self.laying.items, &mut self.levels)?;
        Ok(())
    }

    /// Makes a table of as many of the last resources as there are keys, under these keys. `NoTree` where the row has fewer;
    /// `BadKey` where a key is none of the draft's keys, or stands here twice; `TooLarge` also where the table is deeper than
    /// 8, or has over 65,535 entries. Where more than one of these holds, it is one of them.
    pub fn table(&mut self, keys: &[&[u8]]) -> Result<(), ResbError>
        ensures { MakesTable self.old self.new (bare keys.now) result }
    {
        if !are_known(keys, &self.pool) {
            return Err(ResbError::BadKey);
        }
        if !are_distinct(keys) {
            return Err(ResbError::BadKey);
        }
        self.table_under(keys)
    }

    /// The same, under keys that are not tested.
    pub(crate) fn table_under(&mut self, keys: &[&[u8]]) -> Result<(), ResbError>
        ensures { Names self.old self.new (bare keys.now) result }
    {
        let count = keys.len();
        let kept = first_of_last(count, self.laying.items.len(), self.levels.len())?;
        if count > 65_535 {
            return Err(ResbError::TooLarge);
        }
        let level = level_over(&self.levels.as_slice()[kept..])?;
        let rest = self.without(0)?;
        let left = without_keys(rest, keys)?;
        self.laying.units.clear();
        self.laying.units.push(count as u16)?;
        push_places(keys, &self.pool, &mut self.laying.units)?;
        let item = push_table(kept, self.base, &mut self.laying)?;
        self.levels.truncate(kept);
        self.most = self.most.max(count as u16);
        self.left = left;
        put(item, level, &mut self.laying.items, &mut self.levels)?;
        Ok(())
    }

    /// The words of a bundle (ICU resource bundle, format 2) of the one resource in the row, where the draft's keys are that
    /// tree's; `read` reads them back to it. `NoTree` where there is none in the row, or more than one; `TooLarge` also where
    /// it weighs over 8 times the bundle's words.
    pub fn write(self) -> Result<Vec<u32>, ResbError>
        ensures words { (tree : Resource) → Holds self.entry (key_pool tree) (tree ∷ [])
            → IfOk result (λ words. words.items ≡ written tree) }
        ensures denoted { (tree : Resource) → Holds self.entry (key_pool tree) (tree ∷ [])
            → IfOk result (λ words. tree_of words.items ≡ Some tree) }
        ensures bound { (tree : Resource) → Holds self.entry (key_pool tree) (tree ∷ [])
            → OnOk result (weight tree ≤ 8 * length (written tree)) }
        ensures one { (keys : List (List ℕ)) (row : List Resource) → Holds self.entry keys row
            → OnOk result (length row ≡ 1) }
        ensures err { (keys : List (List ℕ)) (row : List Resource) → Holds self.entry keys row
            → IfErr result (Unwritten keys row) }
    {
        let root = only_item(self.laying.items.as_slice())?;
        check_room(self.base, &self.laying.words)?;
        let alloc = *self.laying.words.allocator();
        let weighed = WEIGHT.saturating_sub(self.left);
        let most = usize::from(self.most);
        let words = bundle_words(
            alloc,
            &self.pool,
            self.base,
            root,
            self.laying.words.as_slice(),
            weighed,
            most,
        )?;
        Ok(words)
    }
}
