// One escape, as litrs's `unescape` reads it, and the bytes that its value stands for.
#![tactic(auto)]

ghost use Rattle.std.specs.Prelude.{◌≡◌, not, ◌&&◌, ◌+◌, ◌≤◌, ◌<◌, length};
ghost use Rattle.err.specs.Numbers.{number_of};
ghost use Rattle.err.specs.Outcome.{refused, between};
ghost use Rattle.err.specs.Reading.{refusal_of};
ghost use Rattle.buffer.specs.Buffer.{Wrote};
ghost use Rattle.escape.specs.Allows.{unicode, byte_escapes, allow_nul};
ghost use Rattle.escape.specs.Escape.{bytes_of, Valid, escaped_of, letter_value, x_byte, x_escape, hex_from, is_scalar, u_scalar, u_hex, bad_start, u_inner, u_escape, escape_of};

use err::{ParseError, ParseErrorKind};
use scan::Except;

// What a kind of literal allows: as text (chars and strings), as bytes, as a C string.
#[derive(Clone, Copy)]
pub enum Allowed {
    Text,
    Bytes,
    C,
}

impl Allowed {
    // Unicode escapes and non-ASCII characters.
    pub fn unicode(self) -> bool
        ensures { result ≡ unicode self }
    {
        match self {
            Allowed::Text => true,
            Allowed::Bytes => false,
            Allowed::C => true,
        }
    }

    // `\x80` to `\xff`.
    pub fn byte_escapes(self) -> bool
        ensures { result ≡ byte_escapes self }
    {
        match self {
            Allowed::Text => false,
            Allowed::Bytes => true,
            Allowed::C => true,
        }
    }

    // NUL.
    pub fn allow_nul(self) -> bool
        ensures { result ≡ allow_nul self }
    {
        match self {
            Allowed::Text => true,
            Allowed::Bytes => true,
            Allowed::C => false,
        }
    }
}

// What an escape or a byte of a body stands for. A dropped line break stands for nothing, which is a value as the others are: it has a length of its own.
#[derive(Clone, Copy)]
pub enum Unescaped {
    Nothing,
    Byte(u8),
    Unicode(u32),
}

// The value of an escape and how many bytes the escape has, or the refusal, with its span from the escape's first byte.
pub type Escape = Result<(Unescaped, usize), ParseError>;

// A refusal of the first bytes, up to an end.
fn bad(kind: ParseErrorKind, end: usize) -> ParseError
    ensures { refusal_of result ≡ refused (number_of kind) (between 0 end) }
{
    err::perr(kind, 0, end)
}

// Whether something is there that is not allowed.
pub fn bars(allowed: bool, there: bool) -> bool
    ensures { result ≡ (not allowed && there) }
{
    !allowed && there
}

// The value of an escape of one letter other than `0`.
#[tactic(auto, unfolding(crate::specs::Escape::simple_escape_of))]
pub fn simple_escape(b: u8) -> Option<u8>
    ensures { result ≡ letter_value b }
{
    match b {
        b'\'' => Some(b'\''),
        b'"' => Some(b'"'),
        b'n' => Some(b'\n'),
        b'r' => Some(b'\r'),
        b't' => Some(b'\t'),
        b'\\' => Some(b'\\'),
        _ => None,
    }
}

// What a `\x` escape with this number stands for, or why the kind refuses it.
#[tactic(auto, using(crate::proofs::Escapes::refused_is_bad), unfolding(crate::specs::Escape::x_byte))]
fn x_byte(v: u8, k: Allowed) -> Escape
    ensures { escaped_of result ≡ x_byte k v }
{
    if bars(k.byte_escapes(), 127 < v) {
        return Err(bad(ParseErrorKind::NonAsciiXEscape, 4));
    }
    if bars(k.allow_nul(), v == 0) {
        return Err(bad(ParseErrorKind::DisallowedNulEscape, 4));
    }
    Ok((Unescaped::Byte(v), 4))
}

// The arm for `\x` of litrs's `unescape`.
fn x_escape(s: &[u8], k: Allowed) -> Escape
    ensures { escaped_of result ≡ x_escape k s.now }
{
    if !utf8::is_boundary(s, 4) {
        return Err(bad(ParseErrorKind::UnterminatedEscape, s.len()));
    }
    let Some(a) = parse::hex_digit_value(scan::byte_at(s, 2)) else {
        return Err(bad(ParseErrorKind::InvalidXEscape, 4));
    };
    let Some(b) = parse::hex_digit_value(scan::byte_at(s, 3)) else {
        return Err(bad(ParseErrorKind::InvalidXEscape, 4));
    };
    x_byte(b + 16 * a, k)
}

// Whether a number is a Unicode scalar value.
#[tactic(auto, unfolding(crate::specs::Escape::is_scalar))]
pub fn is_scalar(v: u32) -> bool
    ensures { result ≡ is_scalar v }
{
    v < 0xD800 || (0xE000 <= v && v < 0x110000)
}

// A refusal of the byte at an offset between the braces.
fn bad_digit(kind: ParseErrorKind, i: usize) -> ParseError
    requires { i + 4 < 18446744073709551616 }
    ensures { refusal_of result ≡ refused (number_of kind) (between (i + 3) (i + 4)) }
{
    err::perr(kind, i + 3, i + 4)
}

// An escape of n bytes whose digits are worth v.
#[tactic(auto, using(crate::proofs::Escapes::refused_is_bad), unfolding(crate::specs::Escape::u_scalar))]
fn u_scalar(v: u32, n: usize, k: Allowed) -> Escape
    ensures { escaped_of result ≡ u_scalar k n v }
{
    if bars(k.allow_nul(), v == 0) {
        return Err(bad(ParseErrorKind::DisallowedNulEscape, n));
    }
    if is_scalar(v) {
        return Ok((Unescaped::Unicode(v), n));
    }
    Err(bad(ParseErrorKind::InvalidUnicodeEscapeChar, n))
}

// The hex digits between the braces, with `_` among them.
fn u_digits(d: &[u8], k: Allowed) -> Escape
    requires { length d.now + 4 < 18446744073709551616 }
    ensures { escaped_of result ≡ u_hex k (length d.now + 4) (hex_from 0 0 0 d.now) }
{
    let mut v: u32 = 0;
    let mut n: u32 = 0;
    for (i, b) in d.iter().enumerate() {
        if *b == b'_' {
            continue;
        }
        let Some(x) = parse::hex_digit_value(*b) else {
            return Err(bad_digit(ParseErrorKind::NonHexDigitInUnicodeEscape, i));
        };
        if n == 6 {
            return Err(bad_digit(ParseErrorKind::TooManyDigitInUnicodeEscape, i));
        }
        v = 16 * v + u32::from(x);
        n += 1;
    }
    u_scalar(v, d.len() + 4, k)
}

// Whether there is no first byte, or it is `_`.
#[tactic(auto, unfolding(crate::specs::Escape::bad_start))]
fn bad_start(d: &[u8]) -> bool
    ensures { result ≡ bad_start d.now }
{
    matches!(d.first(), None | Some(b'_'))
}

// What stands between the braces.
#[tactic(auto, using(crate::proofs::Escapes::refused_is_bad), unfolding(crate::specs::Escape::u_inner))]
fn u_inner(d: &[u8], k: Allowed) -> Escape
    requires { length d.now + 4 < 18446744073709551616 }
    ensures { escaped_of result ≡ u_inner k d.now }
{
    if bad_start(d) {
        return Err(bad_digit(ParseErrorKind::InvalidStartOfUnicodeEscape, 0));
    }
    u_digits(d, k)
}

// The arm for `\u` of litrs's `unescape`.
#[tactic(auto, using(crate::proofs::Escapes::refused_is_bad, crate::proofs::Escapes::brace_there), unfolding(crate::specs::Escape::u_escape, crate::specs::Escape::u_braced))]
fn u_escape(s: &[u8], k: Allowed) -> Escape
    ensures { escaped_of result ≡ u_escape k s.now }
{
    if !k.unicode() {
        return Err(bad(ParseErrorKind::UnicodeEscapeInByteLiteral, 2));
    }
    if scan::byte_at(s, 2) != b'{' {
        return Err(bad(ParseErrorKind::UnicodeEscapeWithoutBrace, 2));
    }
    let n = scan::run_len(&s[3..], Except(b'}'));
    let closing = n + 3;
    if closing == s.len() {
        return Err(bad(ParseErrorKind::UnterminatedUnicodeEscape, s.len()));
    }
    u_inner(&s[3..closing], k)
}

// The escape at the front. Its first byte is a backslash, and is not looked at.
#[tactic(auto, using(crate::proofs::Escapes::refused_is_bad), unfolding(crate::specs::Escape::escape_of, crate::specs::Escape::escape_by))]
pub fn unescape(s: &[u8], k: Allowed) -> Escape
    ensures { escaped_of result ≡ escape_of k s.now }
{
    if s.len() < 2 {
        return Err(bad(ParseErrorKind::UnterminatedEscape, 1));
    }
    let b = s[1];
    if let Some(value) = simple_escape(b) {
        return Ok((Unescaped::Byte(value), 2));
    }
    match b {
        b'0' if k.allow_nul() => Ok((Unescaped::Byte(0), 2)),
        b'0' => Err(bad(ParseErrorKind::DisallowedNulEscape, 2)),
        b'x' => x_escape(s, k),
        b'u' => u_escape(s, k),
        _ => Err(bad(ParseErrorKind::UnknownEscape, 2)),
    }
}

// How many bytes a value has in a string.
pub fn value_len(u: Unescaped) -> usize
    ensures { result ≡ length (bytes_of u) }
{
    match u {
        Unescaped::Nothing => 0,
        Unescaped::Byte(_) => 1,
        Unescaped::Unicode(c) => utf8::encoded_len(c),
    }
}

// A value's bytes are written to the front of out.
pub fn put_value(out: &mut [u8], u: Unescaped) -> usize
    requires { Valid u × (length (bytes_of u) ≤ length out.old) }
    ensures { Wrote (bytes_of u) result out.old out.new }
{
    match u {
        Unescaped::Nothing => 0,
        Unescaped::Byte(b) => buffer::put_bytes(out, &[b]),
        Unescaped::Unicode(c) => utf8::encode_char(out, c),
    }
}
