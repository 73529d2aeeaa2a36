ghost use Rattle.std.specs.Prelude.{◌≡◌, ◌+◌, ◌-◌, ◌*◌, ◌<◌, ◌≤◌, ℕ, All, length, IfOk, IfSome, Some, true};
ghost use Rattle.resb_tree.specs.Words.{run};
ghost use Rattle.resb_tree.specs.Keys.{distinct};
ghost use Rattle.resb_tree.specs.BodyView.{told};
ghost use Rattle.resb_tree.specs.Inside.Forms.{entry_in, EntriesLie};
ghost use Rattle.resb_tree.specs.Inside.KeyPlaces.{HaveKeys, keys_there, key_length};
ghost use Rattle.resb_tree.specs.Inside.Slots.{AreMet, AreApart};
ghost use Rattle.resb_tree.specs.Inside.Left.{key_left};
ghost use Rattle.resb_tree.specs.Reading.{Gives};

use crate::body::BodyWords;
use crate::error::ResbError;
use crate::forms::TableForm;
use crate::key_places::{are_apart, same_places};
use crate::keys::key_stop;
use crate::leaves::spend;
use std::alloc::{AllocError, Global};
use std::marker::Model;

/// How many keys are kept in mind at most.
const SLOTS: usize = 256;

/// The place of a key that was met, and how many bytes it has.
#[derive(Clone, Copy)]
pub struct Met {
    pub place: usize,
    pub len: usize,
}

/// How many tables are kept in mind at most.
const TABLES: usize = 16;

/// A table, no two entries of which have equal keys.
#[derive(Clone, Copy)]
pub struct Apart {
    pub form: TableForm,
    pub v: usize,
    pub count: usize,
}

/// The body of a bundle that is checked, and keys and tables that were met in it: a key in the slot of its place, a table in
/// that of its count, until another one of the same slot is met.
#[derive(Drop)]
pub struct Checker<'a> {
    body: BodyWords<'a>,
    slots: Vec<Option<Met>>,
    tables: Vec<Option<Apart>>,
}

impl<'a> Model for Checker<'a> {
    ghost use Rattle.resb_tree.specs.Bodies.{Body};

    ghost Value = { Body };

    ghost use Rattle.resb_tree.specs.BodyView.{told};
    ghost use Rattle.resb_tree.specs.Inside.Slots.{AreMet, AreApart};

    ghost view = { λ r. told r.body };

    ghost invariant = { λ r.
        AreMet (told r.body) r.slots.items × AreApart (told r.body) r.tables.items };
}

/// As many empty slots as there are.
fn no_slots(alloc: Global, body: BodyWords<'_>) -> Result<Vec<Option<Met>>, AllocError>
    ensures { IfOk result (λ slots. AreMet (told body.entry) slots.items) }
{
    let mut slots = Vec::with_capacity(alloc, SLOTS)?;
    for _ in 0..SLOTS {
        slots.push(None)?;
    }
    Ok(slots)
}

/// As many, for tables.
fn no_tables(alloc: Global, body: BodyWords<'_>) -> Result<Vec<Option<Apart>>, AllocError>
    ensures { IfOk result (λ tables. AreApart (told body.entry) tables.items) }
{
    let mut tables = Vec::with_capacity(alloc, TABLES)?;
    for _ in 0..TABLES {
        tables.push(None)?;
    }
    Ok(tables)
}

/// Whether a table has as many entries as one that was met, and with the same keys.
fn is_known(
    body: BodyWords<'_>,
    tables: &[Option<Apart>],
    form: TableForm,
    v: usize,
    count: usize,
) -> bool
    requires known { AreApart (told body) tables.now }
    requires lie { EntriesLie form (told body) v count }
    ensures { let b = told body.entry in (result ≡ true)
        → distinct (keys_there b (run (entry_in form b v count) 0 count)) ≡ true }
{
    let slot = tables[count % TABLES];
    match slot {
        Some(met) if met.count == count => same_places(body, count, form, v, met.form, met.v),
        _ => false,
    }
}

/// How long the key at a place is, where it was met.
fn met_at(body: BodyWords<'_>, slots: &[Option<Met>], place: usize) -> Option<usize>
    requires { AreMet (told body) slots.now }
    ensures { IfSome result (λ len. key_length (told body.entry) place ≡ Some len) }
{
    let slot = slots[place % SLOTS];
    match slot {
        Some(met) if met.place == place => Some(met.len),
        _ => None,
    }
}

impl<'a> Checker<'a> {
    /// A checker of a body that has met nothing.
    pub fn new(alloc: Global, body: BodyWords<'a>) -> Result<Checker<'a>, AllocError>
        ensures { IfOk result (λ checker. checker ≡ told body.entry) }
    {
        let slots = no_slots(alloc, body)?;
        let tables = no_tables(alloc, body)?;
        Ok(Checker {
            body,
            slots,
            tables,
        })
    }

    /// The body.
    pub fn body(&self) -> BodyWords<'a>
        ensures { told result ≡ self.now }
    {
        self.body
    }

    /// The body, with no copy of it.
    pub fn seen(&self) -> &BodyWords<'a>
        ensures { told result.now ≡ self.now }
    {
        &self.body
    }

    /// What the bytes of the key at a place leave of the limit.
    #[tactic(auto, using(crate::proofs::Checks::stop_length), unfolding(crate::specs::Inside::Left::key_left))]
    pub fn key(&mut self, place: usize, limit: usize) -> Result<usize, ResbError>
        ensures same { self.new ≡ self.old }
        ensures value { Gives (λ x. x) result (key_left self.old place limit) }
    {
        if let Some(len) = met_at(self.body, self.slots.as_slice(), place) {
            return spend(limit, len);
        }
        let len = key_stop(self.body, place)? - place;
        let left = spend(limit, len)?;
        self.slots[place % SLOTS] = Some(Met { place, len });
        Ok(left)
    }

    /// Whether no two entries of a table have equal keys; `AllocError` where memory runs out.
    #[tactic(auto, using(crate::proofs::KeyPlaces::distinct_short))]
    pub fn are_apart(
        &mut self,
        alloc: Global,
        form: TableForm,
        v: usize,
        count: usize,
    ) -> Result<bool, AllocError>
        requires lie { EntriesLie form self.old v count }
        requires keys { HaveKeys self.old form v count }
        ensures same { self.new ≡ self.old }
        ensures value { IfOk result (λ answer. answer ≡ distinct (keys_there self.old
            (run (entry_in form self.old v count) 0 count))) }
    {
        if count < 2 {
            return Ok(true);
        }
        if is_known(self.body, self.tables.as_slice(), form, v, count) {
            return Ok(true);
        }
        let answer = are_apart(alloc, self.body, form, v, count)?;
        if answer {
            self.tables[count % TABLES] = Some(Apart { form, v, count });
        }
        Ok(answer)
    }
}
