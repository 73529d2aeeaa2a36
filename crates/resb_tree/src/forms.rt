ghost use Rattle.std.specs.Prelude.{◌≡◌};
ghost use Rattle.resb_tree.specs.Inside.Parts.{array_form, table_form};

/// Where the items of an array stand.
#[derive(Clone, Copy)]
pub enum ArrayForm {
    /// In words.
    Long,
    /// In units of the 16-bit area, as texts.
    Short,
}

/// Where the key places and items of a table stand.
#[derive(Clone, Copy)]
pub enum TableForm {
    /// Key places of 16 bits, items in words.
    Narrow,
    /// Key places and items in words.
    Wide,
    /// Both in units of the 16-bit area, the items as texts.
    Brief,
}

/// How an array of a type of items stands, where it is one of arrays.
pub fn array_form(kind: u32) -> Option<ArrayForm>
    ensures { result ≡ array_form kind }
{
    match kind {
        8 => Some(ArrayForm::Long),
        9 => Some(ArrayForm::Short),
        _ => None,
    }
}

/// How a table of a type of items stands, where it is one of tables.
pub fn table_form(kind: u32) -> Option<TableForm>
    ensures { result ≡ table_form kind }
{
    match kind {
        2 => Some(TableForm::Narrow),
        4 => Some(TableForm::Wide),
        5 => Some(TableForm::Brief),
        _ => None,
    }
}
