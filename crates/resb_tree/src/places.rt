ghost use Rattle.std.specs.Prelude.{◌≡◌, ℕ, ◌+◌, ◌-◌, ◌*◌, ◌/◌, ◌%◌, ◌<◌, ◌≤◌, length, slice_index, IfOk};
ghost use Rattle.resb_tree.specs.Bodies.{counted, area_counted, area_len, area_unit, text_item};
ghost use Rattle.resb_tree.specs.BodyView.{told};
ghost use Rattle.resb_tree.specs.Inside.Forms.{item_in, items_end, entry_in, EntriesLie};
ghost use Rattle.resb_tree.specs.Inside.Counts.{no_items, array_count, no_entries, table_count};
ghost use Rattle.resb_tree.specs.Reading.{Gives};
ghost use Rattle.resb_tree.specs.declared.forms.TableForm.TheVariants as table;

use crate::body::BodyWords;
use crate::error::ResbError;
use crate::forms::{ArrayForm, TableForm};
use crate::words::unit_at;

/// The type of a text in the 16-bit area, in the high bits of an item.
const SHORT_TEXT: u32 = 1_610_612_736;

/// How many units the 16-bit area has.
pub fn area_len(body: BodyWords<'_>) -> usize
    ensures { result ≡ area_len (told body.entry) }
{
    2 * body.area_end - 2 * body.keys_end
}

/// A unit of the 16-bit area.
pub fn area_unit(body: BodyWords<'_>, at: usize) -> u16
    requires { at < area_len (told body) }
    ensures { result ≡ area_unit (told body.entry) at }
{
    unit_at(body.words, 2 * body.keys_end + at)
}

/// A word of the 16-bit area, which is two of its units.
pub fn area_word(body: &BodyWords<'_>, at: usize) -> u32
    requires { 2 * at < area_len (told body.now) }
    ensures low { area_unit (told body.now) (2 * at) ≡ result % 65536 }
    ensures high { area_unit (told body.now) (2 * at + 1) ≡ result / 65536 }
{
    body.words[body.keys_end + at]
}

/// A unit of the 16-bit area as the item that it stands for.
pub fn text_item(body: BodyWords<'_>, at: usize) -> u32
    requires { at < area_len (told body) }
    ensures { result ≡ text_item (told body.entry) at }
{
    SHORT_TEXT + area_unit(body, at) as u32
}

/// The count at `v`, where its values, of which `per` fit a word, lie below the end.
pub fn count_at(body: BodyWords<'_>, v: usize, per: usize) -> Result<usize, ResbError>
    requires per { 0 < per }
    requires small { per ≤ 4 }
    ensures { Gives (λ x. x) result (counted (told body.entry) v per) }
{
    if v >= body.end {
        return Err(ResbError::NoTree);
    }
    let count = body.words[v] as usize;
    if (count + per - 1) / per > body.end - v - 1 {
        return Err(ResbError::NoTree);
    }
    Ok(count)
}

/// The count at unit `v` of the 16-bit area, where so many times `per` units follow it there.
pub fn area_count_at(body: BodyWords<'_>, v: usize, per: usize) -> Result<usize, ResbError>
    requires { per ≤ 4 }
    ensures { Gives (λ x. x) result (area_counted (told body.entry) v per) }
{
    let len = area_len(body);
    if v >= len {
        return Err(ResbError::NoTree);
    }
    let count = area_unit(body, v) as usize;
    if per * count > len - v - 1 {
        return Err(ResbError::NoTree);
    }
    Ok(count)
}

/// Whether an array at `v` is empty by its place.
pub fn no_items(form: ArrayForm, v: usize) -> bool
    ensures { result ≡ no_items form v }
{
    match form {
        ArrayForm::Long => v == 0,
        ArrayForm::Short => false,
    }
}

/// How many items an array has.
pub fn array_count(body: BodyWords<'_>, form: ArrayForm, v: usize) -> Result<usize, ResbError>
    ensures value { Gives (λ x. x) result (array_count form (told body.entry) v) }
    ensures bound { IfOk result (λ count. v + 1 + count ≤ items_end form (told body.entry)) }
{
    match form {
        ArrayForm::Long => count_at(body, v, 1),
        ArrayForm::Short => area_count_at(body, v, 1),
    }
}

/// The item at a place.
pub fn item_at(body: BodyWords<'_>, form: ArrayForm, at: usize) -> u32
    requires { at < items_end form (told body) }
    ensures { result ≡ item_in form (told body.entry) at }
{
    match form {
        ArrayForm::Long => body.words[at],
        ArrayForm::Short => text_item(body, at),
    }
}

/// Whether a table at `v` is empty by its place.
pub fn no_entries(form: TableForm, v: usize) -> bool
    ensures { result ≡ no_entries form v }
{
    match form {
        TableForm::Narrow | TableForm::Wide => v == 0,
        TableForm::Brief => false,
    }
}

/// The count of a table whose key places take 16 bits.
fn narrow_count(body: BodyWords<'_>, v: usize) -> Result<usize, ResbError>
    ensures value { Gives (λ x. x) result (table_count table.Narrow (told body.entry) v) }
    ensures bound { IfOk result (λ count. EntriesLie table.Narrow (told body.entry) v count) }
{
    if v >= body.end {
        return Err(ResbError::NoTree);
    }
    let count = unit_at(body.words, 2 * v) as usize;
    if v + (count + 2) / 2 + count > body.end {
        return Err(ResbError::NoTree);
    }
    Ok(count)
}

/// The count of a table whose key places take a word.
fn wide_count(body: BodyWords<'_>, v: usize) -> Result<usize, ResbError>
    ensures value { Gives (λ x. x) result (table_count table.Wide (told body.entry) v) }
    ensures bound { IfOk result (λ count. EntriesLie table.Wide (told body.entry) v count) }
{
    if v >= body.end {
        return Err(ResbError::NoTree);
    }
    let count = body.words[v] as usize;
    if 2 * count > body.end - v - 1 {
        return Err(ResbError::NoTree);
    }
    Ok(count)
}

/// How many entries a table has.
pub fn table_count(body: BodyWords<'_>, form: TableForm, v: usize) -> Result<usize, ResbError>
    ensures value { Gives (λ x. x) result (table_count form (told body.entry) v) }
    ensures bound { IfOk result (λ count. EntriesLie form (told body.entry) v count) }
{
    match form {
        TableForm::Narrow => narrow_count(body, v),
        TableForm::Wide => wide_count(body, v),
        TableForm::Brief => area_count_at(body, v, 2),
    }
}

/// The key place and the item of entry `k` of a table of `count` entries.
pub fn entry_at(
    body: BodyWords<'_>,
    form: TableForm,
    v: usize,
    count: usize,
    k: usize,
) -> (usize, u32)
    requires lies { EntriesLie form (told body) v count }
    requires within { k < count }
    ensures { result ≡ entry_in form (told body.entry) v count k }
{
    match form {
        TableForm::Narrow => (
            unit_at(body.words, 2 * v + 1 + k) as usize,
            body.words[v + (count + 2) / 2 + k],
        ),
        TableForm::Wide => (
            body.words[v + 1 + k] as usize,
            body.words[v + 1 + count + k],
        ),
        TableForm::Brief => (
            area_unit(body, v + 1 + k) as usize,
            text_item(body, v + 1 + count + k),
        ),
    }
}
