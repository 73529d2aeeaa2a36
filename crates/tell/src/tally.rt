//! What answers to lines of dates come to.
ghost use Rattle.std.specs.Prelude.{◌≡◌, ◌+◌, ◌<◌, ◌^◌, ℕ, List, [], ◌∷◌};
ghost use Rattle.streams.specs.Lines.{ended};
ghost use Rattle.tell.specs.Load.{is_refusal, moments_in, refusals_in, last_moment, before_tab};

use memchr::memchr;

/// How many answers are moments and how many refusals, and the last moment's answer.
#[derive(Clone, Copy)]
pub struct Tally<'a> {
    pub moments: usize,
    pub refusals: usize,
    pub last: &'a [u8],
}

fn is_refusal(answer: &[u8]) -> bool
    ensures { result ≡ is_refusal answer.now }
{
    match answer {
        [first, ..] => *first == b'!',
        [] => false,
    }
}

// The tally with an answer more.
fn with<'a>(tally: Tally<'a>, answer: &'a [u8]) -> Tally<'a>
    requires moments { tally.moments + 1 < 2 ^ 64 }
    requires refusals { tally.refusals + 1 < 2 ^ 64 }
    ensures moments { (rest : List (List ℕ))
        → result.moments + moments_in rest ≡ tally.entry.moments + moments_in (answer.now ∷ rest) }
    ensures refusals { (rest : List (List ℕ))
        → result.refusals + refusals_in rest
        ≡ tally.entry.refusals + refusals_in (answer.now ∷ rest) }
    ensures last { (rest : List (List ℕ))
        → last_moment result.last.now rest ≡ last_moment tally.entry.last.now (answer.now ∷ rest) }
    ensures one { result.moments + result.refusals
        ≡ tally.entry.moments + tally.entry.refusals + 1 }
{
    let mut more = tally;
    if is_refusal(answer) {
        more.refusals += 1;
    } else {
        more.moments += 1;
        more.last = answer;
    }
    more
}

#[tactic(auto, using(crate::proofs::Tallies::ended_is, crate::proofs::FieldCuts::place_is))]
/// The tally of answers, each of which ends with an LF.
pub fn count(answers: &[u8]) -> Tally<'_>
    ensures moments { result.moments ≡ moments_in (ended answers.now) }
    ensures refusals { result.refusals ≡ refusals_in (ended answers.now) }
    ensures last { result.last.now ≡ last_moment [] (ended answers.now) }
{
    let mut tally = Tally {
        moments: 0,
        refusals: 0,
        last: b"".as_slice(),
    };
    let mut rest = answers;
    'counting: while let Some(len) = memchr(b'\n', rest) {
        tally = with(tally, &rest[..len]);
        rest = &rest[len + 1..];
    }
    tally
}

#[tactic(auto, using(crate::proofs::Tallies::before_tab_is, crate::proofs::FieldCuts::place_is, std::proofs::lemmas::List::take_all))]
/// What stands before the first tab.
pub fn before_tab(answer: &[u8]) -> &[u8]
    ensures { result.now ≡ before_tab answer.now }
{
    match memchr(b'\t', answer) {
        Some(len) => &answer[..len],
        None => answer,
    }
}
