// Quoted bodies: measured, and judged with the suffix after them.
#![tactic(auto)]

ghost use Rattle.std.specs.Prelude.{◌≡◌, ◌+◌, ◌-◌, ◌≤◌, ◌<◌, length, drop};
ghost use Rattle.err.specs.Reading.{hashes_of};
ghost use Rattle.utf8.specs.Cut.{last_len};
ghost use Rattle.body.specs.Packed.{packed_backslash, Stopped};
ghost use Rattle.body.specs.Step.{stop, end_of, next_of, line_break_of, backslash_of, plain_of, step_of};
ghost use Rattle.body.specs.Body.{body, Measures, Fitting};
ghost use Rattle.body.specs.Quote.{quote_of, closing, suffixed, after_end, string_of};

use err::{ParseError, ParseErrorKind, StringLit};
use escape::{Allowed, Unescaped};
use parse::Blanks;

// Why a body ends: at its closing quote, or with a refusal whose span counts from there.
pub type Ending = Result<(), ParseError>;

// Some bytes that stand for a value, and how many; or the closing quote; or a refusal. The last two end the body.
pub type Step = Result<Option<(Unescaped, usize)>, ParseError>;

// Where a body ends, how many bytes it stands for up to there, and why it ends.
#[derive(Clone, Copy)]
pub struct Measured {
    pub at: usize,
    pub len: usize,
    pub end: Ending,
}

// A byte where no escape starts: any but a backslash, and in a raw body that too.
pub fn plain(b: u8, k: Allowed) -> Step
    ensures { next_of result ≡ plain_of k b }
{
    if b == b'\r' {
        return Err(err::perr(ParseErrorKind::CarriageReturn, 0, 1));
    }
    if b == b'"' {
        return Ok(None);
    }
    if escape::bars(k.allow_nul(), b == 0) {
        return Err(err::perr(ParseErrorKind::NulByte, 0, 1));
    }
    if escape::bars(k.unicode(), 127 < b) {
        return Err(err::perr(ParseErrorKind::NonAsciiInByteLiteral, 0, 1));
    }
    Ok(Some((Unescaped::Byte(b), 1)))
}

// A backslash and LF, and the blanks that follow.
fn line_break(s: &[u8]) -> Step
    requires { 2 ≤ length s.now }
    ensures { next_of result ≡ line_break_of (drop 2 s.now) }
{
    let rest = &s[2..];
    let n = scan::run_len(rest, Blanks);
    if n == rest.len() {
        return Err(err::perr_nowhere(ParseErrorKind::UnterminatedString));
    }
    Ok(Some((Unescaped::Nothing, n + 2)))
}

// A backslash and what follows. An escape never sees the text's last character, which has `last` bytes.
fn backslash(s: &[u8], last: usize, k: Allowed) -> Step
    requires { (1 ≤ length s.now) × (last ≡ last_len s.now) }
    ensures { next_of result ≡ backslash_of k s.now }
{
    if scan::byte_at(s, 1) == b'\n' {
        return line_break(s);
    }
    let end = s.len() - last;
    let piece = escape::unescape(&s[..end], k)?;
    Ok(Some(piece))
}

// A backslash and what follows at an offset, as one number; 0 where it ends the body, or where there is none. An escape sees what stands
// before `end`.
pub fn packed_at(s: &[u8], at: usize, end: usize, k: Allowed) -> u64
    requires { (at ≤ length s.now) × ((length s.now < 4294967296) × (end ≡ length s.now - last_len s.now)) }
    ensures { result ≡ packed_backslash k (drop at s.now) }
{
    if s.len() - at < 2 {
        return 0;
    }
    if s[at] != b'\\' {
        return 0;
    }
    let next = at + 1;
    if s[next] == b'\n' {
        let from = at + 2;
        let n = scan::run_len(&s[from..], Blanks);
        if from + n == s.len() {
            return 0;
        }
        return escape_packed::packed_nothing(n + 2);
    }
    if end <= next {
        return 0;
    }
    escape_packed::packed(&s[at..end], k)
}

// What stands at an offset of a quoted body, as litrs's loop takes it.
fn step_at(s: &[u8], at: usize, last: usize, k: Allowed) -> Step
    requires { last ≡ last_len s.now }
    ensures { next_of result ≡ step_of k (drop at s.now) }
{
    if s.len() <= at {
        return Err(err::perr_nowhere(ParseErrorKind::UnterminatedString));
    }
    let b = s[at];
    if b != b'\\' {
        return plain(b, k);
    }
    backslash(&s[at..], last, k)
}

// Why a quoted body ends where it has no piece: at its closing quote, as almost all do, or by litrs's step.
fn ending_at(s: &[u8], at: usize, last: usize, k: Allowed) -> Ending
    requires { (last ≡ last_len s.now) × Stopped (step_of k (drop at s.now)) }
    ensures { stop (end_of result) ≡ step_of k (drop at s.now) }
{
    if scan::byte_at(s, at) == b'"' {
        return Ok(());
    }
    // the step has no piece
    step_at(s, at, last, k)?;
    Ok(())
}

// The body of a quoted string, litrs's `unescape_string`: s is what stands after the opening quote, to the end of the text. The bytes that stand
// for themselves at its front are passed in blocks.
fn measure(s: &[u8], k: Allowed) -> Measured
    requires { length s.now < 4294967296 }
    ensures { Measures (body k s.now) result }
{
    let last = utf8::last_len(s);
    let end = s.len() - last;
    let mut i = body_plain::front_end(s, k);
    let mut n = i;
    // no `for`: a turn goes on by a length that it finds
    loop {
        let b = scan::byte_at(s, i);
        if b == b'\\' {
            let c = packed_at(s, i, end, k);
            if c == 0 {
                break;
            }
            n += escape::value_len(escape_packed::packed_value(c));
            i += escape_packed::packed_len(c);
            continue;
        }
        // almost all bodies end here: then no run of plain bytes is looked for
        if b == b'"' {
            break;
        }
        let e = body_plain::plain_end(s, i, k);
        if e == i {
            break;
        }
        n += e - i;
        i = e;
    }
    Measured {
        at: i,
        len: n,
        end: ending_at(s, i, last, k),
    }
}

// The literal where its suffix is good, or the suffix's refusal.
fn check_end(text: &[u8], lit: StringLit) -> Result<StringLit, ParseError>
    requires { lit.start_suffix ≤ length text.now }
    ensures { quote_of result ≡ suffixed text.now (hashes_of lit.hashes) lit.start_suffix lit.value_len }
{
    let start = lit.start_suffix;
    // most literals have no suffix
    if start == text.len() {
        return Ok(lit);
    }
    let Err(kind) = suffix::check_suffix(&text[start..]) else {
        return Ok(lit);
    };
    Err(err::perr(kind, start, start + 1))
}

// A body was measured that starts at an offset, and q bytes close it. Inlined: at a call what was measured and the literal would go through memory.
#[inline(always)]
pub fn after_body(
    text: &[u8],
    hashes: Option<u8>,
    q: usize,
    offset: usize,
    m: Measured,
) -> Result<StringLit, ParseError>
    requires { (q ≡ closing (hashes_of hashes)) × Fitting q (offset) (length text.now) m }
    ensures { quote_of result ≡ after_end text.now (hashes_of hashes) (offset + m.at) m.len (end_of m.end) }
{
    let at = offset + m.at;
    let Err(error) = m.end else {
        return check_end(
            text,
            StringLit {
                hashes,
                value_len: m.len,
                start_suffix: at + q,
            },
        );
    };
    Err(error.offset_span(at))
}

// A text whose quoted body starts at an offset, after the opening quote.
pub fn unescape_string(text: &[u8], offset: usize, k: Allowed) -> Result<StringLit, ParseError>
    requires { (offset ≤ length text.now) × (length text.now < 4294967296) }
    ensures { quote_of result ≡ string_of k offset text.now }
{
    let m = measure(&text[offset..], k);
    after_body(text, None, 1, offset, m)
}
