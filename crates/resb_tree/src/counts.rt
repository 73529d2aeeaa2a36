//! How many values, items and entries stand behind a place of a body that has some.
ghost use Rattle.std.specs.Prelude.{◌≡◌, ◌+◌, ◌<◌};
ghost use Rattle.resb_tree.specs.BodyView.{told};
ghost use Rattle.resb_tree.specs.Inside.Forms.{item_in, items_end};
ghost use Rattle.resb_tree.specs.Inside.Parts.{count_there, items_count, entries_end, entries_count};

use crate::body::BodyWords;
use crate::forms::{ArrayForm, TableForm};
use crate::places::{area_unit, item_at};
use crate::words::unit_at;

/// The count at a word; 0 where the place is 0.
pub fn count_there(body: &BodyWords<'_>, v: usize) -> usize
    requires { v < body.now.end }
    ensures { result ≡ count_there (told body.now) v }
{
    if v == 0 {
        return 0;
    }
    body.words[v] as usize
}

/// How many items the array at `v` has.
pub fn items_count(body: &BodyWords<'_>, form: ArrayForm, v: usize) -> usize
    requires { v < items_end form (told body.now) }
    ensures { result ≡ items_count form (told body.now) v }
{
    match form {
        ArrayForm::Long => count_there(body, v),
        ArrayForm::Short => area_unit(*body, v) as usize,
    }
}

/// How many entries the table at `v` has.
pub fn entries_count(body: &BodyWords<'_>, form: TableForm, v: usize) -> usize
    requires { v < entries_end form (told body.now) }
    ensures { result ≡ entries_count form (told body.now) v }
{
    match form {
        TableForm::Narrow => {
            if v == 0 {
                0
            } else {
                unit_at(body.words, 2 * v) as usize
            }
        }
        TableForm::Wide => count_there(body, v),
        TableForm::Brief => area_unit(*body, v) as usize,
    }
}

/// The item of an array whose items begin at a place.
pub fn item_behind(body: &BodyWords<'_>, form: ArrayForm, from: usize, place: usize) -> u32
    requires { from + place < items_end form (told body.now) }
    ensures { result ≡ item_in form (told body.now) (from + place) }
{
    item_at(*body, form, from + place)
}
