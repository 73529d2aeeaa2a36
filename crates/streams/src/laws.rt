//! Laws of the definitions.

ghost use Rattle.streams.specs.LineLaws.{LinesEndAtLfs};
ghost use Rattle.streams.specs.Report.{OneReply, OneReport};

use crate::Answer;

/// Lines have one report at most with each engine that has one reply at most to a line: what a run gains is told by its
/// input.
pub fn one_report_of<A: Answer>(engine: &A)
    ensures { OneReply (A.reply engine.now) → OneReport (A.reply engine.now) }
{}

/// The first LF of bytes ends their first line, and without an LF no line ends.
#[inline]
pub fn lines_end_at_lfs()
    ensures { LinesEndAtLfs }
{}
