//! One walk over the words of a body that tells whether they denote a tree. It keeps nothing of what it passes.
ghost use Rattle.std.specs.Prelude.{◌≡◌, ℕ, [], ◌+◌, ◌-◌, ◌*◌, ◌<◌, ◌≤◌, length, slice_index, IfOk};
ghost use Rattle.resb_tree.specs.Words.{run};
ghost use Rattle.resb_tree.specs.BodyView.{told};
ghost use Rattle.resb_tree.specs.Inside.Forms.{item_in, items_end, entry_in, EntriesLie};
ghost use Rattle.resb_tree.specs.Reading.{Gives};
ghost use Rattle.resb_tree.specs.Tree.{denoted};
ghost use Rattle.resb_tree.specs.Inside.Left.{counted_left, short_text_left, items_left, array_left, key_left, entries_left, table_left};
ghost use Rattle.resb_tree.specs.Inside.Walk.{nested_left, left_behind};
ghost use Rattle.resb_tree.specs.Inside.Places.{root_there, IsRoot};

use crate::body::BodyWords;
use crate::checker::Checker;
use crate::error::ResbError;
use crate::forms::{ArrayForm, TableForm};
use crate::leaves::{short_span, spend};
use crate::places::{array_count, count_at, entry_at, item_at, no_entries, no_items, table_count};
use std::alloc::Global;

/// An item is its type times this, and its value.
pub const STEP: u32 = 268_435_456;

/// How deep a tree may be.
pub const DEPTH: u8 = 8;

/// What the values behind the count at `v`, of which `per` fit a word, leave of the limit.
#[tactic(auto, unfolding(crate::specs::Inside::Left::counted_left))]
fn counted_left(
    body: &BodyWords<'_>,
    v: usize,
    per: usize,
    limit: usize,
) -> Result<usize, ResbError>
    requires per { 0 < per }
    requires small { per ≤ 4 }
    ensures { Gives (λ x. x) result (counted_left (told body.now) v per limit) }
{
    if v == 0 {
        return spend(limit, 1);
    }
    let count = count_at(*body, v, per)?;
    if count >= limit {
        return Err(ResbError::NoTree);
    }
    Ok(limit - count - 1)
}

/// What the text at unit `v` of the 16-bit area leaves of the limit.
#[tactic(auto, unfolding(crate::specs::Inside::Left::short_text_left))]
fn short_text_left(body: &BodyWords<'_>, v: usize, limit: usize) -> Result<usize, ResbError>
    ensures { Gives (λ x. x) result (short_text_left (told body.now) v limit) }
{
    let (_, count) = short_span(body, v).ok_or(ResbError::NoTree)?;
    spend(limit, count + 1)
}

/// What the items of an array, from a place on, leave of the limit.
#[cycle(walk)]
#[tactic(auto, using(crate::proofs::Runs::run_next, crate::proofs::Runs::run_none))]
fn items_left(
    alloc: Global,
    checker: &mut Checker<'_>,
    form: ArrayForm,
    levels: u8,
    from: usize,
    count: usize,
    limit: usize,
) -> Result<usize, ResbError>
    requires { from + count ≤ items_end form checker.old }
    ensures same { checker.new ≡ checker.old }
    ensures value { Gives (λ x. x) result
        (items_left (left_behind checker.old levels)
        (run (item_in form checker.old) from count) limit) }
{
    let body = checker.body();
    let mut left = limit;
    for at in from..from + count {
        let item = item_at(body, form, at);
        left = item_left(alloc, checker, levels, item, left)?;
    }
    Ok(left)
}

/// What the array at `v` leaves of the limit.
#[cycle(walk)]
#[tactic(auto, unfolding(crate::specs::Inside::Left::array_left))]
fn array_left(
    alloc: Global,
    checker: &mut Checker<'_>,
    form: ArrayForm,
    levels: u8,
    v: usize,
    limit: usize,
) -> Result<usize, ResbError>
    ensures same { checker.new ≡ checker.old }
    ensures value { Gives (λ x. x) result
        (array_left form (left_behind checker.old levels) checker.old v limit) }
{
    let left = spend(limit, 1)?;
    if no_items(form, v) {
        return Ok(left);
    }
    let count = array_count(checker.body(), form, v)?;
    items_left(alloc, checker, form, levels, v + 1, count, left)
}

/// What the entries of the table of so many entries at `v` leave of the limit.
#[cycle(walk)]
#[tactic(auto, using(crate::proofs::Runs::run_next, crate::proofs::Runs::run_none))]
fn entries_left(
    alloc: Global,
    checker: &mut Checker<'_>,
    form: TableForm,
    levels: u8,
    v: usize,
    count: usize,
    limit: usize,
) -> Result<usize, ResbError>
    requires { EntriesLie form checker.old v count }
    ensures same { checker.new ≡ checker.old }
    ensures value { Gives (λ x. x) result
        (entries_left (key_left checker.old) (left_behind checker.old levels)
        (run (entry_in form checker.old v count) 0 count) limit) }
{
    let body = checker.body();
    let mut left = limit;
    for k in 0..count {
        let (place, item) = entry_at(body, form, v, count, k);
        let after_key = checker.key(place, left)?;
        left = item_left(alloc, checker, levels, item, after_key)?;
    }
    Ok(left)
}

/// What the table at `v` leaves of the limit.
#[cycle(walk)]
#[tactic(auto, using(crate::proofs::Checks::have_keys), unfolding(crate::specs::Inside::Left::table_left))]
fn table_left(
    alloc: Global,
    checker: &mut Checker<'_>,
    form: TableForm,
    levels: u8,
    v: usize,
    limit: usize,
) -> Result<usize, ResbError>
    ensures same { checker.new ≡ checker.old }
    ensures value { Gives (λ x. x) result
        (table_left form (left_behind checker.old levels) checker.old v limit) }
{
    let left = spend(limit, 1)?;
    if no_entries(form, v) {
        return Ok(left);
    }
    let count = table_count(checker.body(), form, v)?;
    let rest = entries_left(alloc, checker, form, levels, v, count, left)?;
    if !checker.are_apart(alloc, form, v, count)? {
        return Err(ResbError::NoTree);
    }
    Ok(rest)
}

/// What a table or an array of a type and a value leaves of the limit.
#[cycle(walk)]
#[tactic(auto, unfolding(crate::specs::Inside::Walk::nested_left))]
fn nested_left(
    alloc: Global,
    checker: &mut Checker<'_>,
    levels: u8,
    kind: u32,
    v: usize,
    limit: usize,
) -> Result<usize, ResbError>
    ensures same { checker.new ≡ checker.old }
    ensures value { Gives (λ x. x) result
        (nested_left (left_behind checker.old levels) checker.old kind v limit) }
{
    match kind {
        2 => table_left(alloc, checker, TableForm::Narrow, levels, v, limit),
        4 => table_left(alloc, checker, TableForm::Wide, levels, v, limit),
        5 => table_left(alloc, checker, TableForm::Brief, levels, v, limit),
        8 => array_left(alloc, checker, ArrayForm::Long, levels, v, limit),
        9 => array_left(alloc, checker, ArrayForm::Short, levels, v, limit),
        _ => Err(ResbError::NoTree),
    }
}

/// What an item leaves of the limit.
#[cycle(walk)]
#[tactic(auto, unfolding(crate::specs::Inside::Walk::left_behind, crate::specs::Inside::Walk::typed_left))]
fn item_left(
    alloc: Global,
    checker: &mut Checker<'_>,
    levels: u8,
    item: u32,
    limit: usize,
) -> Result<usize, ResbError>
    ensures same { checker.new ≡ checker.old }
    ensures value { Gives (λ x. x) result (left_behind checker.old levels item limit) }
{
    if levels == 0 {
        return Err(ResbError::NoTree);
    }
    let v = (item % STEP) as usize;
    match item / STEP {
        0 => counted_left(checker.seen(), v, 2, limit),
        1 => counted_left(checker.seen(), v, 4, limit),
        6 => short_text_left(checker.seen(), v, limit),
        7 => spend(limit, 1),
        14 => counted_left(checker.seen(), v, 1, limit),
        kind => nested_left(alloc, checker, levels - 1, kind, v, limit),
    }
}

/// Whether the root item of a body denotes a tree of at most 8 levels that is not too heavy.
#[tactic(auto, using(crate::proofs::Left::root_found, crate::proofs::Left::root_none))]
pub fn check_root(alloc: Global, body: BodyWords<'_>, limit: usize) -> Result<(), ResbError>
    ensures value { let b = told body.entry in
        Gives (λ _. root_there b) result (denoted b limit) }
    ensures root { IfOk result (λ _. IsRoot (told body.entry)) }
{
    let mut checker = Checker::new(alloc, body)?;
    item_left(alloc, &mut checker, DEPTH, body.words[0], limit)?;
    Ok(())
}
