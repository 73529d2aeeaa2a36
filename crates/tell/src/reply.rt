//! The reply to a line of dates, as text.
ghost use Rattle.std.specs.Prelude.{◌≡◌, ◌++◌, IsSome, Some, OnOk};
ghost use Rattle.std.specs.Fmt.{decimal, signed_decimal};
ghost use Rattle.std.specs.String.{string_bytes};
ghost use Rattle.tongues.specs.Any.{any_speech};
ghost use Rattle.timeago.specs.Appended.{Adds};
ghost use Rattle.tell.specs.Moments.{IsBase};
ghost use Rattle.tell.specs.Replies.{Reply, Unlawful};
ghost use Rattle.tell.specs.ReplyTexts.{IsReply, reply_text};
ghost use Rattle.tell.specs.Voices.{voices_of};
ghost use Rattle.tell.specs.Inside.MomentView.{IsInCalendar, refusal};
ghost use Rattle.tell.specs.Inside.ReplyParts.{IsMomentText, IsAnswer};

use crate::fields::{Fields, split_fields};
use crate::find::find;
use crate::front::push_front;
use crate::lead::lead_from;
use crate::moment::Moment;
use crate::teller::Teller;
use crate::told::TellError;
use itoa::Buffer;
use std::alloc::AllocError;
use std::fmt::Write;
use zoneinfo64::{CheckedZones, ZoneFault};

// Appends a count.
fn push_count(out: &mut String, count: u64) -> Result<(), AllocError>
    ensures { OnOk result (string_bytes out.new ≡ string_bytes out.old ++ decimal count) }
{
    let mut buffer = Buffer::new();
    out.push_str(buffer.format(count))?;
    Ok(())
}

// Appends a moment, with the words of its distance from the base.
fn push_moment(
    out: &mut String,
    teller: &Teller,
    fields: &Fields<'_>,
    moment: &Moment,
) -> Result<(), AllocError>
    requires base { IsBase fields.now.base }
    requires inside { IsInCalendar moment.now }
    ensures { OnOk result
        (Adds (IsMomentText (voices_of (any_speech teller.now)) fields.now.base moment.now)
        (string_bytes out.old) (string_bytes out.new)) }
{
    let lead = lead_from(fields, moment);
    push_front(out, moment, lead.ahead)?;
    teller.push_told(out, lead)?;
    Ok(())
}

// Appends the law that a zone breaks.
fn push_unlawful(out: &mut String, fault: ZoneFault) -> Result<(), AllocError>
    ensures { OnOk result
        (string_bytes out.new ≡ string_bytes out.old ++ reply_text (Unlawful fault)) }
{
    out.push_str("! unlawful zone ")?;
    push_count(out, u64::from(fault.number()))?;
    Ok(())
}

// Appends what is replied in place of a moment.
fn push_refusal(out: &mut String, error: TellError) -> Result<(), AllocError>
    requires { IsSome (refusal error) }
    ensures { (reply : Reply) → refusal error ≡ Some reply
        → OnOk result (string_bytes out.new ≡ string_bytes out.old ++ reply_text reply) }
{
    match error {
        TellError::UnknownZone => out.push_str("! unknown zone")?,
        TellError::BadBase => out.push_str("! base out of range")?,
        TellError::Unlawful(fault) => push_unlawful(out, fault)?,
        TellError::Phrase(fault) => write!(out, "! {fault}")?,
        TellError::Memory | TellError::Bundle => unreachable!(),
    }
    Ok(())
}

// Appends what is replied to a line, without an LF.
fn push_answer(
    out: &mut String,
    teller: &Teller,
    zones: &CheckedZones,
    line: &[u8],
) -> Result<(), AllocError>
    ensures { OnOk result (Adds (IsAnswer (voices_of (any_speech teller.now)) zones.now line.now)
        (string_bytes out.old) (string_bytes out.new)) }
{
    let Some(fields) = split_fields(line) else {
        out.push_str("! bad line")?;
        return Ok(());
    };
    match find(zones.get(fields.zone), &fields) {
        Ok(moment) => push_moment(out, teller, &fields, &moment)?,
        Err(error) => push_refusal(out, error)?,
    }
    Ok(())
}

/// Appends the reply to a line of dates, LF included, in the words of a language.
pub fn push_reply(
    out: &mut String,
    teller: &Teller,
    zones: &CheckedZones,
    line: &[u8],
) -> Result<(), AllocError>
    ensures { OnOk result (Adds (IsReply (any_speech teller.now) zones.now line.now)
        (string_bytes out.old) (string_bytes out.new)) }
{
    push_answer(out, teller, zones, line)?;
    out.push('\n')?;
    Ok(())
}
