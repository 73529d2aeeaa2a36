ghost use Rattle.std.specs.Prelude.{◌≡◌, ℕ, ◌<◌, List, false, None, IfSome, IfNone};
ghost use Rattle.std.specs.Str.{bytes_eq};
ghost use Rattle.std.specs.Option.{option_copied};
ghost use Rattle.resb_tree.specs.Words.{value_count, sign_extended};
ghost use Rattle.resb_tree.specs.Contents.{text_in, bytes_in, integers_in, items_in, entries_in, index_in, signed_in};
ghost use Rattle.resb_tree.specs.Fields.{field_in, first_with, without_first, without_field, StandsFirst, seen};

use crate::key::Key;
use sqlite_items::Items;

/// A resource of a bundle, with its children (ICU resource bundle, format 2).
#[derive(Drop)]
pub enum Resource {
    /// UTF-16 units, which may hold surrogates that stand alone.
    Text(Items<u16>),
    Bytes(Items<u8>),
    /// Keys with their values. Trees that `read` gives have each key once.
    Table(Items<(Key, Resource)>),
    /// A number, which a bundle holds in 28 bits.
    Integer(u32),
    Array(Items<Resource>),
    /// Numbers of 32 bits.
    Integers(Items<u32>),
}

/// The value of the first entry with the key.
fn first_with<'a>(entries: &'a [(Key, Resource)], key: &[u8]) -> Option<&'a Resource>
    ensures { option_copied result ≡ first_with key.now entries.now }
{
    for (name, value) in entries {
        if name.as_slice() == key {
            return Some(value);
        }
    }
    None
}

/// The place of the first entry with the key.
fn place_of(entries: &[(Key, Resource)], key: &[u8]) -> Option<usize>
    ensures some { IfSome result (λ at. StandsFirst key.now at entries.now) }
    ensures none { IfNone result (first_with key.now entries.now ≡ None) }
    ensures all { IfNone result (without_first key.now entries.now ≡ entries.now) }
{
    for at in 0..entries.len() {
        if entries[at].0.as_slice() == key {
            return Some(at);
        }
    }
    None
}

/// Takes the first entry with the key out, and answers its value.
fn take_first(entries: &mut Items<(Key, Resource)>, key: &[u8]) -> Option<Resource>
    ensures value { result ≡ first_with key.now entries.old }
    ensures others { entries.new ≡ without_first key.now entries.old }
{
    let at = place_of(entries.as_slice(), key)?;
    let (_, value) = entries.remove(at);
    Some(value)
}

/// The same in a table; another kind stays as it is.
fn take_value(tree: &mut Resource, key: &[u8]) -> Option<Resource>
    ensures value { result ≡ field_in key.now tree.old }
    ensures rest { tree.new ≡ without_field key.now tree.old }
{
    match tree {
        Resource::Table(entries) => take_first(entries, key),
        _ => None,
    }
}

/// The low 28 bits of a number with their sign.
pub fn sign_extended(v: u32) -> i32
    requires { v < value_count }
    ensures { result ≡ sign_extended v }
{
    if v < 134_217_728 {
        v as i32
    } else {
        v as i32 - 268_435_456
    }
}

impl Resource {
    /// The units of a text.
    pub fn text(&self) -> Option<&[u16]>
        ensures { seen result ≡ text_in self.now }
    {
        match self {
            Resource::Text(units) => Some(units.as_slice()),
            _ => None,
        }
    }

    /// The bytes of a list of bytes.
    pub fn bytes(&self) -> Option<&[u8]>
        ensures { seen result ≡ bytes_in self.now }
    {
        match self {
            Resource::Bytes(bytes) => Some(bytes.as_slice()),
            _ => None,
        }
    }

    /// The numbers of a list of integers, of 32 bits each.
    pub fn integers(&self) -> Option<&[u32]>
        ensures { seen result ≡ integers_in self.now }
    {
        match self {
            Resource::Integers(values) => Some(values.as_slice()),
            _ => None,
        }
    }

    /// The items of an array.
    pub fn items(&self) -> Option<&[Resource]>
        ensures { seen result ≡ items_in self.now }
    {
        match self {
            Resource::Array(items) => Some(items.as_slice()),
            _ => None,
        }
    }

    /// The entries of a table, in its order.
    pub fn entries(&self) -> Option<&[(Key, Resource)]>
        ensures { seen result ≡ entries_in self.now }
    {
        match self {
            Resource::Table(entries) => Some(entries.as_slice()),
            _ => None,
        }
    }

    /// The low 28 bits of an integer, as a number from 0 to 268,435,455.
    pub fn index(&self) -> Option<u32>
        ensures { result ≡ index_in self.now }
    {
        match self {
            Resource::Integer(v) => Some(*v % 268_435_456),
            _ => None,
        }
    }

    /// The low 28 bits of an integer, as a number from -134,217,728 to 134,217,727.
    pub fn signed(&self) -> Option<i32>
        ensures { result ≡ signed_in self.now }
    {
        match self {
            Resource::Integer(v) => Some(sign_extended(*v % 268_435_456)),
            _ => None,
        }
    }

    /// A table's value for a key, the first where the key stands more than once.
    pub fn field(&self, key: &[u8]) -> Option<&Resource>
        ensures { option_copied result ≡ field_in key.now self.now }
    {
        match self {
            Resource::Table(entries) => first_with(entries.as_slice(), key),
            _ => None,
        }
    }

    /// Takes the first entry with the key out of a table, and answers its value.
    ///
    /// `None` comes for another kind, and for a table without the key; then nothing changes.
    #[tactic(auto, using(crate::proofs::FirstEntries::others_stay))]
    pub fn take_field(&mut self, key: &[u8]) -> Option<Resource>
        ensures value { result ≡ field_in key.now self.old }
        ensures rest { self.new ≡ without_field key.now self.old }
        ensures others { (other : List ℕ) → bytes_eq other key.now ≡ false
            → field_in other self.new ≡ field_in other self.old }
    {
        take_value(self, key)
    }

    /// The units of a text, moved out of it.
    pub fn into_text(self) -> Option<Items<u16>>
        ensures { result ≡ text_in self }
    {
        match self {
            Resource::Text(units) => Some(units),
            _ => None,
        }
    }

    /// The bytes of a list of bytes, moved out of it.
    pub fn into_bytes(self) -> Option<Items<u8>>
        ensures { result ≡ bytes_in self }
    {
        match self {
            Resource::Bytes(bytes) => Some(bytes),
            _ => None,
        }
    }

    /// The numbers of a list of integers, moved out of it.
    pub fn into_integers(self) -> Option<Items<u32>>
        ensures { result ≡ integers_in self }
    {
        match self {
            Resource::Integers(values) => Some(values),
            _ => None,
        }
    }

    /// The items of an array, moved out of it.
    pub fn into_items(self) -> Option<Items<Resource>>
        ensures { result ≡ items_in self }
    {
        match self {
            Resource::Array(items) => Some(items),
            _ => None,
        }
    }
}
