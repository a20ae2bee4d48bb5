// Char and byte literals: one character or byte between single quotes.
#![tactic(auto)]

ghost use Rattle.std.specs.Prelude.{◌≡◌, ◌≤◌, ◌<◌, length};
ghost use Rattle.err.specs.Reading.{outcome_of};
ghost use Rattle.character_quote.specs.Content.{inner_of};
ghost use Rattle.character.specs.Single.{single_of, suffixed_at, closed_at, scalar_of, escaped_at, first_at, single_at, read_by};

use character_quote::{Inner, Quote};
use err::{Literal, ParseError, ParseErrorKind};
use escape::Unescaped;
use scan::Except;

// The value and where the suffix starts, or why a text is no such literal.
pub type Single = Result<(u32, usize), ParseError>;

// After the closing quote: the suffix, whose fault spans its first byte.
#[tactic(auto, using(scan::proofs::Parts::part_to_end, err::proofs::Positive::number_positive, suffix::proofs::Suffixes::no_suffix), unfolding(crate::specs::Single::suffixed_at))]
fn suffixed(text: &[u8], start: usize, value: u32, q: Quote) -> Single
    requires { start ≤ length text.now }
    ensures { single_of q result ≡ suffixed_at q text.now start value }
{
    // most literals have no suffix
    if start == text.len() {
        return Ok((value, start));
    }
    let Err(kind) = suffix::check_suffix(&text[start..]) else {
        return Ok((value, start));
    };
    Err(err::perr(kind, start, start + 1))
}

// After the character: the closing quote, or a later one, or none.
#[tactic(auto, using(scan::proofs::Parts::part_to_end, crate::proofs::Within::quote_there), unfolding(crate::specs::Single::closed_at))]
fn closed(text: &[u8], at: usize, value: u32, q: Quote) -> Single
    requires { at ≤ length text.now }
    ensures { single_of q result ≡ closed_at q text.now at value }
{
    if scan::byte_at(text, at) == b'\'' {
        return suffixed(text, at + 1, value, q);
    }
    let rest = &text[at..];
    if scan::run_len(rest, Except(b'\'')) == rest.len() {
        return Err(err::perr_nowhere(q.unterminated()));
    }
    Err(err::perr_nowhere(q.overlong()))
}

// The number of a value. An escape is never a dropped line break.
fn scalar(u: Unescaped) -> u32
    ensures { result ≡ scalar_of u }
{
    match u {
        Unescaped::Nothing => 0,
        Unescaped::Byte(b) => u32::from(b),
        Unescaped::Unicode(c) => c,
    }
}

// An escape, which sees the text to its end.
#[tactic(auto, using(scan::proofs::Parts::part_to_end), unfolding(crate::specs::Single::escaped_at))]
fn escaped(text: &[u8], at: usize, q: Quote) -> Inner
    requires { at < length text.now }
    ensures { inner_of result ≡ escaped_at q text.now at }
{
    match escape::unescape(&text[at..], q.allowed()) {
        Ok((u, n)) => Ok((scalar(u), n)),
        Err(error) => Err(error.offset_span(at)),
    }
}

// The first byte between the quotes.
#[tactic(auto, unfolding(crate::specs::Single::first_at))]
fn first(text: &[u8], at: usize, q: Quote) -> Inner
    requires { at < length text.now }
    ensures { inner_of result ≡ first_at q text.now at }
{
    let b = text[at];
    if b == b'\'' {
        return Err(character_quote::quote_first(text, at, q));
    }
    if character_quote::is_special(b) {
        return Err(err::perr(ParseErrorKind::UnescapedSpecialWhitespace, at, at + 1));
    }
    if b == b'\\' {
        return escaped(text, at, q);
    }
    character_quote::plain(text, at, q)
}

// Of a text that starts with the quote.
#[tactic(auto, using(crate::proofs::Within::content_ends), unfolding(crate::specs::Single::single_at))]
fn parse_impl(text: &[u8], q: Quote) -> Single
    ensures { single_of q result ≡ single_at q text.now }
{
    let at = q.offset();
    if text.len() <= at {
        return Err(err::perr_nowhere(q.unterminated()));
    }
    let (value, n) = first(text, at, q)?;
    closed(text, at + n, value, q)
}

// litrs's `CharLit::parse` and `ByteLit::parse`.
#[tactic(auto, using(crate::proofs::Start::read_none, crate::proofs::Start::read_some))]
pub fn parse(text: &[u8], q: Quote) -> Result<Literal, ParseError>
    ensures { outcome_of result ≡ read_by q text.now }
{
    if text.is_empty() {
        return Err(err::perr_nowhere(ParseErrorKind::Empty));
    }
    if !q.opens(text) {
        return Err(q.refused_start());
    }
    let (value, start) = parse_impl(text, q)?;
    Ok(q.literal(value, start))
}
