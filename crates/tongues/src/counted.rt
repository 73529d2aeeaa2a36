ghost use Rattle.std.specs.Prelude.{◌≡◌, ◌==◌, ◌%◌, ◌&&◌, nat_le, if◌then◌else◌};

// The word for the count 1, or the one for any other count.
pub fn one_or_more(x: u64, one: &'static str, more: &'static str) -> &'static str
    ensures { result.now ≡ (if x == 1 then one.now else more.now) }
{
    if x == 1 { one } else { more }
}

// The word of the form that a Slavic language has beside the count.
pub fn one_few_many(
    x: u64,
    one: &'static str,
    few: &'static str,
    many: &'static str,
) -> &'static str
    ensures { result.now ≡ (
        if nat_le 11 (x % 100) && nat_le (x % 100) 20 then many.now else (
        if x % 10 == 1 then one.now else (
        if nat_le 2 (x % 10) && nat_le (x % 10) 4 then few.now else many.now))) }
{
    // most counts are below 100, and need one division at most
    let last_two = if x < 100 { x } else { x % 100 };
    match last_two {
        1 => return one,
        2..=4 => return few,
        0 | 5..=20 => return many,
        _ => {}
    }
    match last_two % 10 {
        1 => one,
        2..=4 => few,
        _ => many,
    }
}
