//! The fields of a zone, found in one pass over the entries of its table.
ghost use Rattle.std.specs.Prelude.{◌≡◌, Some, []};
ghost use Rattle.std.specs.Str.{bytes_eq};
ghost use Rattle.zoneinfo64.specs.Inside.FieldKeys.{key_of, field_named};
ghost use Rattle.zoneinfo64.specs.Inside.ZoneParts.{first_or, with_field, parts_in, parts_of};

use resb_tree::{KeyRef, ResourceRef};

/// A field that a zone may have.
#[derive(Clone, Copy)]
enum Field {
    FinalRaw,
    FinalRule,
    FinalYear,
    Links,
    Trans,
    TransPost32,
    TransPre32,
    TypeMap,
    TypeOffsets,
}

/// The values of a zone's fields, each that of the first entry with its key.
#[derive(Drop)]
pub struct ZoneParts<'a> {
    pub final_raw: Option<ResourceRef<'a>>,
    pub final_rule: Option<ResourceRef<'a>>,
    pub final_year: Option<ResourceRef<'a>>,
    pub links: Option<ResourceRef<'a>>,
    pub trans: Option<ResourceRef<'a>>,
    pub trans_post32: Option<ResourceRef<'a>>,
    pub trans_pre32: Option<ResourceRef<'a>>,
    pub type_map: Option<ResourceRef<'a>>,
    pub type_offsets: Option<ResourceRef<'a>>,
}

/// The field with a key. Keys that differ from most in their first byte are tried first.
fn field_named(key: &KeyRef<'_>) -> Option<Field>
    ensures { result ≡ field_named key.now }
{
    if key.is(b"finalRaw") {
        Some(Field::FinalRaw)
    } else if key.is(b"links") {
        Some(Field::Links)
    } else if key.is(b"trans") {
        Some(Field::Trans)
    } else if key.is(b"transPre32") {
        Some(Field::TransPre32)
    } else if key.is(b"transPost32") {
        Some(Field::TransPost32)
    } else if key.is(b"typeMap") {
        Some(Field::TypeMap)
    } else if key.is(b"typeOffsets") {
        Some(Field::TypeOffsets)
    } else if key.is(b"finalRule") {
        Some(Field::FinalRule)
    } else if key.is(b"finalYear") {
        Some(Field::FinalYear)
    } else {
        None
    }
}

/// Whether a key is that of a field.
#[inline(always)]
fn is_key_of(key: &KeyRef<'_>, field: Field) -> bool
    ensures { result ≡ bytes_eq key.now (key_of field) }
{
    match field {
        Field::FinalRaw => key.is(b"finalRaw"),
        Field::FinalRule => key.is(b"finalRule"),
        Field::FinalYear => key.is(b"finalYear"),
        Field::Links => key.is(b"links"),
        Field::Trans => key.is(b"trans"),
        Field::TransPost32 => key.is(b"transPost32"),
        Field::TransPre32 => key.is(b"transPre32"),
        Field::TypeMap => key.is(b"typeMap"),
        Field::TypeOffsets => key.is(b"typeOffsets"),
    }
}

/// The field with a key, with a guess that is tried before all others.
fn field_by(key: &KeyRef<'_>, guess: Field) -> Option<Field>
    ensures { result ≡ field_named key.now }
{
    if is_key_of(key, guess) {
        Some(guess)
    } else {
        field_named(key)
    }
}

/// A value where there was none before.
fn first_or<'a>(first: &mut Option<ResourceRef<'a>>, value: ResourceRef<'a>)
    ensures { first.new ≡ first_or first.old (Some value.entry) }
{
    if first.is_none() {
        *first = Some(value);
    }
}

/// Puts a value at its field, and tells the field that mostly follows in a bundle, whose keys rise. Apart, so that
/// the fields stay in memory.
#[inline(never)]
fn put<'a>(parts: &mut ZoneParts<'a>, field: Field, value: ResourceRef<'a>) -> Field
    ensures { parts.new ≡ with_field field value.entry parts.old }
{
    match field {
        Field::FinalRaw => {
            first_or(&mut parts.final_raw, value);
            Field::FinalRule
        }
        Field::FinalRule => {
            first_or(&mut parts.final_rule, value);
            Field::FinalYear
        }
        Field::FinalYear => {
            first_or(&mut parts.final_year, value);
            Field::Trans
        }
        Field::Links => {
            first_or(&mut parts.links, value);
            Field::Trans
        }
        Field::Trans => {
            first_or(&mut parts.trans, value);
            Field::TypeMap
        }
        Field::TransPost32 => {
            first_or(&mut parts.trans_post32, value);
            Field::TypeMap
        }
        Field::TransPre32 => {
            first_or(&mut parts.trans_pre32, value);
            Field::TypeMap
        }
        Field::TypeMap => {
            first_or(&mut parts.type_map, value);
            Field::TypeOffsets
        }
        Field::TypeOffsets => {
            first_or(&mut parts.type_offsets, value);
            Field::TypeOffsets
        }
    }
}

fn no_parts<'a>() -> ZoneParts<'a>
    ensures { result ≡ parts_in [] }
{
    ZoneParts {
        final_raw: None,
        final_rule: None,
        final_year: None,
        links: None,
        trans: None,
        trans_post32: None,
        trans_pre32: None,
        type_map: None,
        type_offsets: None,
    }
}

/// The fields of a zone's table; none of another kind.
pub fn zone_parts<'a>(zone: &ResourceRef<'a>) -> ZoneParts<'a>
    ensures { result ≡ parts_of zone.now }
{
    let mut parts = no_parts();
    let Some(entries) = zone.entries() else {
        return parts;
    };
    // most tables have this field, and the smallest have no other
    let mut guess = Field::TypeOffsets;
    for at in 0..entries.len() {
        let (key, value) = entries.at(at);
        if let Some(field) = field_by(&key, guess) {
            guess = put(&mut parts, field, value);
        }
    }
    parts
}
