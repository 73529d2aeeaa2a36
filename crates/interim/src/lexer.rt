ghost use Rattle.std.specs.Prelude.{◌≡◌, ℕ, IsTrue, List, ◌∷◌, ◌<◌, ◌≤◌, [], length, take, min, Ok, Some, IfNone, if◌then◌else◌};
ghost use Rattle.std.specs.Char.{is_ascii_digit};
ghost use Rattle.interim.specs.Characters.{is_blank, is_letter, continues, run_len, skip, decimal_from};
ghost use Rattle.interim.specs.Tokens.{mark, more, kind_of, tokens_of};
ghost use Rattle.interim.specs.Inside.Reading.{Reads};
ghost use Rattle.interim.specs.Inside.Seen.{front_kind, seen_kind_option, seen_option, tokens_left};
ghost use Rattle.interim.specs.NextTokens as ahead;
ghost use Rattle.interim.specs.ReadingSteps as step;
ghost use Rattle.interim.specs.TokenTests as test;
ghost use Rattle.interim.specs.TimePart.{kind_is_capital_t};

use crate::errors::{DateError, DateResult, Expected, Span};
use crate::words::is_capital_t;
use std::marker::Model;

/// What a token is.
#[derive(Clone, Copy)]
pub enum Kind<'a> {
    /// One to four digits.
    Number(u16),
    /// Letters as they are written.
    Word(&'a [u8]),
    Dash,
    Slash,
    Colon,
    Dot,
    Comma,
    Plus,
    /// A character that begins no other token.
    Unknown,
}

/// A token with its place in the phrase.
#[derive(Clone, Copy)]
pub struct Token<'a> {
    pub kind: Kind<'a>,
    pub span: Span,
}

// What the token at the front is; its letters stand in the text.
#[derive(Clone, Copy)]
enum Front {
    End,
    Number(u16),
    Word,
    Dash,
    Slash,
    Colon,
    Dot,
    Comma,
    Plus,
    Unknown,
}

// Up to four digits as a number, and how many bytes they have after the first.
pub fn number(first: u8, after: &[u8]) -> (u16, usize)
    requires { IsTrue (is_ascii_digit first) }
    ensures value { result.0 ≡ decimal_from 0 (first ∷ take result.1 after.now) }
    ensures len { result.1 ≡ min 3 (run_len is_ascii_digit after.now) }
{
    let mut value = u16::from(first - b'0');
    let mut len = 0;
    while len < 3 && len < after.len() && after[len].is_ascii_digit() {
        value = value * 10 + u16::from(after[len] - b'0');
        len += 1;
    }
    (value, len)
}

pub fn letters(bytes: &[u8]) -> usize
    ensures { result ≡ run_len is_letter bytes.now }
{
    bytes
        .iter()
        .take_while(|b| **b >= b'A' && **b <= b'Z' || **b >= b'a' && **b <= b'z')
        .count()
}

fn later_bytes(bytes: &[u8]) -> usize
    ensures { result ≡ run_len continues bytes.now }
{
    bytes
        .iter()
        .take_while(|b| **b >= 128 && **b <= 191)
        .count()
}

fn is_blank(byte: u8) -> bool
    ensures { result ≡ is_blank byte }
{
    byte <= b' ' && matches!(byte, b' ' | b'\t' | b'\n' | 12)
}

fn without_blanks(bytes: &[u8]) -> &[u8]
    ensures value { result.now ≡ skip bytes.now }
    ensures bound { length result.now ≤ length bytes.now }
{
    let mut rest = bytes;
    while let [first, more @ ..] = rest {
        if !is_blank(*first) {
            return rest;
        }
        rest = more;
    }
    rest
}

fn mark_of(byte: u8) -> Front
    ensures { (bytes : List ℕ) → front_kind result bytes ≡ Some (mark byte) }
{
    match byte {
        b'-' => Front::Dash,
        b'/' => Front::Slash,
        b':' => Front::Colon,
        b'.' => Front::Dot,
        b',' => Front::Comma,
        b'+' => Front::Plus,
        _ => Front::Unknown,
    }
}

// What the token is that begins with a byte, and how many bytes it has after it.
#[inline(always)]
#[tactic(auto, unfolding(crate::specs::Tokens::more, crate::specs::Tokens::kind_of))]
fn front_of(first: u8, after: &[u8]) -> (Front, usize)
    ensures kind { let bytes = first ∷ take result.1 after.now in
        front_kind result.0 bytes ≡ Some (kind_of first bytes) }
    ensures len { result.1 ≡ more first after.now }
    ensures bound { result.1 ≤ length after.now }
{
    if first.is_ascii_digit() {
        let (value, len) = number(first, after);
        return (Front::Number(value), len);
    }
    if first.is_ascii_alphabetic() {
        return (Front::Word, letters(after));
    }
    if first.is_ascii() {
        return (mark_of(first), 0);
    }
    (Front::Unknown, later_bytes(after))
}

// The first token of what is left of a text of so many bytes: what it is, the text from it on, and how many bytes it has.
#[inline(always)]
fn first_token(total: usize, text: &[u8]) -> (Front, &[u8], usize)
    requires { length text.now ≤ total }
    ensures tokens { tokens_left result.0 result.2 total result.1.now ≡ tokens_of total text.now }
    ensures rest { length result.1.now ≤ length text.now }
    ensures len { result.2 ≤ length result.1.now }
{
    let left = without_blanks(text);
    let [first, after @ ..] = left else {
        return (Front::End, left, 0);
    };
    let (front, more) = front_of(*first, after);
    (front, left, more + 1)
}

/// A place in a phrase, seen as the tokens that are left. The next one is known: it has so many bytes at the front.
#[derive(Drop)]
pub struct Lexer<'a> {
    front: Front,
    left: &'a [u8],
    len: usize,
    total: usize,
}

impl<'a> Model for Lexer<'a> {
    ghost use Rattle.std.specs.Prelude.{List, length, ◌≤◌};
    ghost use Rattle.interim.specs.TokenKinds.{Token};
    ghost use Rattle.interim.specs.Inside.Seen.{IsPlace, tokens_left};

    ghost Value = { List Token };

    ghost view = { λ l. tokens_left l.front l.len l.total l.left.now };

    ghost invariant = { λ l. IsPlace l.len l.total l.left.now };
}

impl<'a> Lexer<'a> {
    ghost use Rattle.interim.specs.Tokens.{phrase_tokens};

    pub fn new(phrase: &'a [u8]) -> Lexer<'a>
        ensures { result ≡ phrase_tokens phrase.now }
    {
        let (front, left, len) = first_token(phrase.len(), phrase);
        Lexer {
            front,
            left,
            len,
            total: phrase.len(),
        }
    }

    /// The next token, which stays.
    #[inline(always)]
    pub fn peek(&self) -> Option<Token<'a>>
        ensures token { seen_option result ≡ ahead.next_token self.now }
        ensures none { IfNone result (self.now ≡ []) }
    {
        let kind = match self.front {
            Front::End => return None,
            Front::Number(n) => Kind::Number(n),
            Front::Word => Kind::Word(&self.left[..self.len]),
            Front::Dash => Kind::Dash,
            Front::Slash => Kind::Slash,
            Front::Colon => Kind::Colon,
            Front::Dot => Kind::Dot,
            Front::Comma => Kind::Comma,
            Front::Plus => Kind::Plus,
            Front::Unknown => Kind::Unknown,
        };
        let start = self.total - self.left.len();
        let end = start + self.len;
        let span = Span { start, end };
        Some(Token { kind, span })
    }

    /// Goes past the next token, if one is left.
    #[inline(never)]
    pub fn advance(&mut self)
        ensures { self.new ≡ ahead.after_token self.old }
    {
        if matches!(self.front, Front::End) {
            return;
        }
        let (front, left, len) = first_token(self.total, &self.left[self.len..]);
        self.front = front;
        self.left = left;
        self.len = len;
    }

    /// The fault where another text is expected in place of the next token, or of the end.
    pub fn fault(&self, expected: Expected) -> DateError
        ensures { result ≡ ahead.fault_at expected (ahead.next_token self.now) }
    {
        match self.peek() {
            Some(token) => DateError::ExpectedToken(expected, token.span),
            None => DateError::EndOfText(expected),
        }
    }

    // What the next token is.
    fn next_kind(&self) -> Option<Kind<'a>>
        ensures { seen_kind_option result ≡ ahead.next_kind self.now }
    {
        let token = self.peek()?;
        Some(token.kind)
    }

    // Takes the next token where it is the one that is looked for.
    fn take_if(&mut self, is_there: bool) -> bool
        ensures value { result ≡ is_there }
        ensures left { self.new ≡ if is_there then ahead.after_token self.old else self.old }
    {
        if is_there {
            self.advance();
        }
        is_there
    }

    /// Takes the number that is needed.
    #[tactic(auto, unfolding(crate::specs::ReadingSteps::number))]
    pub fn number(&mut self) -> DateResult<u16>
        ensures { Reads (step.number self.old) result self.new }
    {
        if let Some(token) = self.peek()
            && let Kind::Number(n) = token.kind
        {
            self.advance();
            return Ok(n);
        }
        Err(self.fault(Expected::Number))
    }

    /// Takes the dash that is needed.
    #[tactic(auto, unfolding(crate::specs::ReadingSteps::dash))]
    pub fn dash(&mut self) -> DateResult<()>
        ensures { Reads (step.dash self.old) result self.new }
    {
        if let Some(token) = self.peek()
            && let Kind::Dash = token.kind
        {
            self.advance();
            return Ok(());
        }
        Err(self.fault(Expected::Dash))
    }

    /// Takes the number that follows, if one does.
    #[tactic(auto, unfolding(crate::specs::ReadingSteps::following_number))]
    pub fn following_number(&mut self) -> Option<u16>
        ensures { step.following_number self.old ≡ Ok (result, self.new) }
    {
        if let Some(Kind::Number(n)) = self.next_kind() {
            self.advance();
            return Some(n);
        }
        None
    }

    /// Takes the slash that follows; whether one did.
    #[tactic(auto, unfolding(crate::specs::ReadingSteps::follows))]
    pub fn follows_slash(&mut self) -> bool
        ensures { step.follows test.is_slash self.old ≡ Ok (result, self.new) }
    {
        let is_there = matches!(self.next_kind(), Some(Kind::Slash));
        self.take_if(is_there)
    }

    /// Takes the colon that follows; whether one did.
    #[tactic(auto, unfolding(crate::specs::ReadingSteps::follows))]
    pub fn follows_colon(&mut self) -> bool
        ensures { step.follows test.is_colon self.old ≡ Ok (result, self.new) }
    {
        let is_there = matches!(self.next_kind(), Some(Kind::Colon));
        self.take_if(is_there)
    }

    /// Takes the dot that follows; whether one did.
    #[tactic(auto, unfolding(crate::specs::ReadingSteps::follows))]
    pub fn follows_dot(&mut self) -> bool
        ensures { step.follows test.is_dot self.old ≡ Ok (result, self.new) }
    {
        let is_there = matches!(self.next_kind(), Some(Kind::Dot));
        self.take_if(is_there)
    }

    /// Takes the comma that follows; whether one did.
    #[tactic(auto, unfolding(crate::specs::ReadingSteps::follows))]
    pub fn follows_comma(&mut self) -> bool
        ensures { step.follows test.is_comma self.old ≡ Ok (result, self.new) }
    {
        let is_there = matches!(self.next_kind(), Some(Kind::Comma));
        self.take_if(is_there)
    }

    /// Takes the capital T that follows; whether one did.
    #[tactic(auto, unfolding(crate::specs::ReadingSteps::follows))]
    pub fn follows_capital_t(&mut self) -> bool
        ensures { step.follows kind_is_capital_t self.old ≡ Ok (result, self.new) }
    {
        let is_there = match self.next_kind() {
            Some(Kind::Word(word)) => is_capital_t(word),
            _ => false,
        };
        self.take_if(is_there)
    }

    /// Passes over a token that no rule names.
    #[tactic(auto, unfolding(crate::specs::ReadingSteps::pass_over))]
    pub fn pass_over(&mut self)
        ensures { step.pass_over self.old ≡ Ok (tt, self.new) }
    {
        self.advance();
    }
}
