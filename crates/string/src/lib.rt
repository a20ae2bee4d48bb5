// String, byte string and C string literals, which differ in what they allow (`escape::Allowed`): their readings, and their decoded bytes.
#![tactic(auto)]

ghost use Rattle.std.specs.Prelude.{◌≡◌, ◌≤◌, ◌<◌, length, Ok};
ghost use Rattle.err.specs.Reading.{refusal_of, outcome_of};
ghost use Rattle.buffer.specs.Buffer.{Wrote};
ghost use Rattle.string.specs.String.{offset_of, opening_by, opening_at, start_fault, parsed_of, string_read, string_value};
ghost use Rattle.string.specs.Inner.{inner_of};
ghost use Rattle.string.specs.Decode.{decoded_of, string_decoded, buffer_after};

use err::{Literal, ParseError, ParseErrorKind, StringLit};
use escape::Allowed;

// Where the body or the hashes start: after `"` or `r`, and the kind's letter.
pub fn offset(k: Allowed) -> usize
    ensures { result ≡ offset_of k }
{
    match k {
        Allowed::Text => 1,
        Allowed::Bytes => 2,
        Allowed::C => 2,
    }
}

// What another start is refused with.
fn refused_start(k: Allowed) -> ParseError
    ensures { refusal_of result ≡ start_fault k }
{
    match k {
        Allowed::Text => err::perr(ParseErrorKind::InvalidStringLiteralStart, 0, 1),
        Allowed::Bytes => err::perr_nowhere(ParseErrorKind::InvalidByteStringLiteralStart),
        Allowed::C => err::perr_nowhere(ParseErrorKind::InvalidCStringLiteralStart),
    }
}

// The literal of the kind.
fn literal(k: Allowed, lit: StringLit) -> Literal
    ensures { outcome_of (Ok result) ≡ parsed_of k (Ok lit) }
{
    match k {
        Allowed::Text => Literal::String(lit),
        Allowed::Bytes => Literal::ByteString(lit),
        Allowed::C => Literal::CString(lit),
    }
}

// How a text begins: as a quoted literal of the kind, as a raw one, or as neither.
#[derive(Clone, Copy)]
pub enum Opening {
    Quoted,
    Raw,
    Neither,
}

// The byte before the offset, where the kind's letter stands before that.
fn opening_of(text: &[u8], k: Allowed) -> Opening
    ensures { result ≡ opening_at k text.now }
{
    match k {
        Allowed::Text => quote_or_r(scan::byte_at(text, 0)),
        Allowed::Bytes => {
            if scan::byte_at(text, 0) != b'b' {
                return Opening::Neither;
            }
            quote_or_r(scan::byte_at(text, 1))
        }
        Allowed::C => {
            if scan::byte_at(text, 0) != b'c' {
                return Opening::Neither;
            }
            quote_or_r(scan::byte_at(text, 1))
        }
    }
}

// How a literal goes on after the kind's letter.
#[tactic(auto, unfolding(crate::specs::String::opening_by))]
fn quote_or_r(b: u8) -> Opening
    ensures { result ≡ opening_by b }
{
    match b {
        b'"' => Opening::Quoted,
        b'r' => Opening::Raw,
        _ => Opening::Neither,
    }
}

// The literal that a text is, or why it is none.
#[tactic(auto, using(crate::proofs::Starts::read_none, crate::proofs::Starts::read_some))]
fn parse_lit(text: &[u8], k: Allowed) -> Result<StringLit, ParseError>
    requires { length text.now < 4294967296 }
    ensures { parsed_of k result ≡ string_read k text.now }
{
    match opening_of(text, k) {
        Opening::Quoted => body::unescape_string(text, offset(k), k),
        Opening::Raw => raw::scan_raw_string(text, offset(k), k),
        Opening::Neither if text.is_empty() => Err(err::perr_nowhere(ParseErrorKind::Empty)),
        Opening::Neither => Err(refused_start(k)),
    }
}

// litrs's `StringLit::parse`, `ByteStringLit::parse` and `CStringLit::parse`.
pub fn parse(text: &[u8], k: Allowed) -> Result<Literal, ParseError>
    requires { length text.now < 4294967296 }
    ensures { outcome_of result ≡ string_read k text.now }
{
    let lit = parse_lit(text, k)?;
    Ok(literal(k, lit))
}

// Where a literal's value stands in its text (two places, neither a failure, so it is no `Result`): as it is, from one offset to another; or as a quoted body with escapes, from an offset.
#[derive(Clone, Copy)]
pub enum Inner {
    AsItIs(usize, usize),
    Escaped(usize),
}

// litrs's `inner_range`. A quoted body is the value where it has as many bytes.
pub fn inner_range(k: Allowed, lit: StringLit) -> Inner
    requires { lit.value_len < 4294967296 }
    ensures { result ≡ inner_of k lit }
{
    let from = offset(k);
    let n = lit.value_len;
    match lit.hashes {
        None => {
            let end = from + n;
            if end + 1 == lit.start_suffix {
                return Inner::AsItIs(from, end);
            }
            Inner::Escaped(from)
        }
        Some(h) => {
            let start = from + usize::from(h) + 1;
            Inner::AsItIs(start, start + n)
        }
    }
}

// The value of a literal that was read from the text, written to the front of out.
fn put_decoded(out: &mut [u8], text: &[u8], k: Allowed, lit: StringLit) -> usize
    requires { ((length text.now < 4294967296) × (parsed_of k (Ok lit) ≡ string_read k text.now)) × (lit.value_len ≤ length out.old) }
    ensures { Wrote (string_value k text.now) result out.old out.new }
{
    match inner_range(k, lit) {
        Inner::AsItIs(start, end) => buffer::put_bytes(out, &text[start..end]),
        Inner::Escaped(start) => body_value::write_value(out, &text[start..], k),
    }
}

// The decoded bytes of a literal that was read from the text, and how many they are: they are counted before, so that a refusal leaves every byte of out as
// it came.
pub fn decode(text: &[u8], k: Allowed, lit: StringLit, out: &mut [u8]) -> Result<usize, ParseError>
    requires { (length text.now < 4294967296) × (parsed_of k (Ok lit) ≡ string_read k text.now) }
    ensures answer { decoded_of result ≡ string_decoded k text.now (length out.old) }
    ensures out_after { out.new ≡ buffer_after k text.now out.old }
{
    if out.len() < lit.value_len {
        return Err(err::perr_nowhere(ParseErrorKind::OutTooSmall));
    }
    Ok(put_decoded(out, text, k, lit))
}
