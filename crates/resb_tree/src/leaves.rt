ghost use Rattle.std.specs.Prelude.{◌≡◌, ℕ, ◌+◌, ◌-◌, ◌*◌, ◌<◌, ◌≤◌, IfSome};
ghost use Rattle.resb_tree.specs.Bodies.{area_len, area_unit};
ghost use Rattle.resb_tree.specs.BodyView.{told};
ghost use Rattle.resb_tree.specs.Reading.{Gives};
ghost use Rattle.resb_tree.specs.Inside.Left.{spent};
ghost use Rattle.resb_tree.specs.Inside.Spans.{zero_from, span_inside, told_span, short_span};

use crate::body::BodyWords;
use crate::error::ResbError;
use crate::places::{area_len, area_unit, area_word};

/// What is left of the limit on weight.
pub fn spend(limit: usize, weight: usize) -> Result<usize, ResbError>
    ensures { Gives (λ x. x) result (spent limit weight) }
{
    if weight > limit {
        return Err(ResbError::NoTree);
    }
    Ok(limit - weight)
}

/// The place of the first zero unit in the words of the 16-bit area from one on.
#[tactic(auto, using(crate::proofs::Scans::zero_words, crate::proofs::Scans::zero_never, std::proofs::lemmas::Bool::Decides::nat_tests))]
fn zero_word(body: &BodyWords<'_>, from: usize) -> Option<usize>
    ensures value { let b = told body.now in
        result ≡ zero_from (area_unit b) (2 * from) (area_len b - 2 * from) }
    ensures low { IfSome result (λ stop. 2 * from ≤ stop) }
    ensures high { IfSome result (λ stop. stop < area_len (told body.now)) }
{
    for at in from..body.area_end - body.keys_end {
        let word = area_word(body, at);
        if word % 65_536 == 0 {
            return Some(2 * at);
        }
        if word < 65_536 {
            return Some(2 * at + 1);
        }
    }
    None
}

/// The place of the first zero unit of the 16-bit area from `v` on.
#[tactic(auto, using(crate::proofs::Scans::zero_next, crate::proofs::Scans::zero_never))]
fn zero_unit(body: &BodyWords<'_>, v: usize) -> Option<usize>
    requires { v < area_len (told body.now) }
    ensures value { let b = told body.now in
        result ≡ zero_from (area_unit b) v (area_len b - v) }
    ensures low { IfSome result (λ stop. v ≤ stop) }
    ensures high { IfSome result (λ stop. stop < area_len (told body.now)) }
{
    if v % 2 == 0 {
        return zero_word(body, v / 2);
    }
    if area_word(body, v / 2) < 65_536 {
        return Some(v);
    }
    zero_word(body, v / 2 + 1)
}

/// So many units from a place on, where they lie inside the 16-bit area.
fn span_inside(body: BodyWords<'_>, from: usize, count: usize) -> Option<(usize, usize)>
    ensures value { result ≡ span_inside (told body.entry) from count }
    ensures bound { IfSome result (λ span. span.0 + span.1 ≤ area_len (told body.entry)) }
{
    let len = area_len(body);
    if from > len || count > len - from {
        return None;
    }
    Some((from, count))
}

/// The length that the first unit of a text of the 16-bit area tells, and where its units are.
fn told_span(body: BodyWords<'_>, v: usize, first: usize) -> Option<(usize, usize)>
    requires within { v < area_len (told body) }
    requires low { 0xDC00 ≤ first }
    requires high { first ≤ 0xDFFF }
    ensures value { result ≡ told_span (told body.entry) v first }
    ensures bound { IfSome result (λ span. span.0 + span.1 ≤ area_len (told body.entry)) }
{
    if first < 0xDFEF {
        return span_inside(body, v + 1, first % 1024);
    }
    if first < 0xDFFF {
        if v + 1 >= area_len(body) {
            return None;
        }
        let count = (first - 0xDFEF) * 65_536 + area_unit(body, v + 1) as usize;
        return span_inside(body, v + 2, count);
    }
    if v + 2 >= area_len(body) {
        return None;
    }
    let count = area_unit(body, v + 1) as usize * 65_536 + area_unit(body, v + 2) as usize;
    span_inside(body, v + 3, count)
}

/// Where the units of a text of the 16-bit area are, and how many.
#[tactic(auto, unfolding(crate::specs::Inside::Spans::short_span))]
pub fn short_span(body: &BodyWords<'_>, v: usize) -> Option<(usize, usize)>
    ensures value { result ≡ short_span (told body.now) v }
    ensures bound { IfSome result (λ span. span.0 + span.1 ≤ area_len (told body.now)) }
{
    if v >= area_len(*body) {
        return None;
    }
    let first = area_unit(*body, v) as usize;
    if first < 0xDC00 || 0xDFFF < first {
        let stop = zero_unit(body, v)?;
        return Some((v, stop - v));
    }
    told_span(*body, v, first)
}
