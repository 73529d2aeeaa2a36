ghost use Rattle.std.specs.Prelude.{◌<◌, ◌≤◌, length};

/// The words behind the header, and the ends that the index tells, in words from the root item on.
#[derive(Clone, Copy)]
pub struct BodyWords<'a> {
    pub words: &'a [u32],
    pub keys_end: usize,
    pub area_end: usize,
    pub end: usize,
    ghost keys: { keys_end ≤ area_end },
    ghost area: { area_end ≤ end },
    ghost within: { end ≤ length words.now },
    ghost some: { 0 < end },
}
