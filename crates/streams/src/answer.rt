ghost use Rattle.std.specs.Prelude.{ℕ, List, IfOk, OnOk};
ghost use Rattle.std.specs.String.{string_bytes};
ghost use Rattle.streams.specs.Whole.{Adds};
ghost use Rattle.streams.specs.Report.{CutsLongLines};

use std::alloc::{AllocError, Global};

/// What replies to the lines of an input.
pub trait Answer {
    /// Which texts are the reply to a line, LF included.
    ghost reply: { Self → List ℕ → List ℕ → Type 0 };

    /// The reply to a line, LF included.
    fn answer(&self, alloc: Global, line: &[u8]) -> Result<String, AllocError>
        ensures { IfOk result (λ text. reply self.now line.now (string_bytes text)) };

    /// Appends the reply to a line. Where memory cannot be found, what was appended is no reply.
    fn answer_into(
        &self,
        alloc: Global,
        line: &[u8],
        replies: &mut String,
    ) -> Result<(), AllocError>
        ensures { OnOk result
            (Adds (reply self.now line.now)
            (string_bytes replies.old) (string_bytes replies.new)) }
    {
        let text = self.answer(alloc, line)?;
        replies.push_str(text.as_str())?;
        Ok(())
    }

    // The reply to a line of over 1,024 bytes is the reply to its first 1,025 bytes.
    ghost cuts_long_lines: { (engine : Self) → CutsLongLines (reply engine) };
}
