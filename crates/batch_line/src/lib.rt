// Lines of the batch format (docs/BATCH.md), made in a lent buffer. A `put_` function writes to its front, an `add_` function after its first `at` bytes; each
// returns where what it wrote ends, and leaves the bytes after that as they were.
#![tactic(auto)]

ghost use Rattle.std.specs.Prelude.{Ok, ◌≡◌, ◌++◌, ◌+◌, ◌*◌, ◌≤◌, length, drop};
ghost use Rattle.err.specs.Numbers.{number_of};
ghost use Rattle.err.specs.Reading.{place_of, hashes_of, values_of_string, outcome_of};
ghost use Rattle.err.specs.Outcome.{none, accepted};
ghost use Rattle.err.specs.Counts.{counts_of};
ghost use Rattle.err_added.specs.Numbers.{added_number};
ghost use Rattle.buffer.specs.Buffer.{Wrote};
ghost use Rattle.batch_line.specs.Lines.{Added, number_piece, place_piece, hashes_piece, counts_piece, hexes, hex_piece, kept, kept_piece, refusal_line, ok_line, kind_line, reading_line};

use err::{Literal, ParseError, Reading, Span, StringLit};
use err_added::AddedErrorKind;

// Some bytes.
pub fn add(line: &mut [u8], at: usize, piece: &[u8]) -> usize
    requires { at + length piece.now ≤ length line.old }
    ensures { Added piece.now at result line.old line.new }
{
    at + buffer::put_bytes(&mut line[at..], piece)
}

// A space and a number.
pub fn add_number(line: &mut [u8], at: usize, n: u64) -> usize
    requires { at + 21 ≤ length line.old }
    ensures { Added (number_piece n) at result line.old line.new × (result ≤ at + 21) }
{
    let from = add(line, at, b" ");
    from + buffer::put_decimal(&mut line[from..], n)
}

// The span's ends, or that it has none.
fn add_span(line: &mut [u8], at: usize, span: Option<Span>) -> usize
    requires { at + 42 ≤ length line.old }
    ensures { Added (place_piece (place_of span)) at result line.old line.new × (result ≤ at + 42) }
{
    match span {
        None => add(line, at, b" - -"),
        Some(span) => {
            let next = add_number(line, at, span.start as u64);
            add_number(line, next, span.end as u64)
        }
    }
}

// `no`, a number and a span.
fn put_no(line: &mut [u8], number: u8, span: Option<Span>) -> usize
    requires { 128 ≤ length line.old }
    ensures { Wrote (refusal_line number (place_of span)) result line.old line.new × (result ≤ 107) }
{
    let start = add(line, 0, b"no");
    let at = add_number(line, start, u64::from(number));
    add_span(line, at, span)
}

// The line of a refusal: its number and its span.
pub fn put_refusal(line: &mut [u8], error: ParseError) -> usize
    requires { 128 ≤ length line.old }
    ensures { Wrote (refusal_line (number_of error.kind) (place_of error.span)) result line.old line.new × (result ≤ 107) }
{
    put_no(line, err::number(error.kind), error.span)
}

// The line of a refusal from 50 on, which has no span.
pub fn put_added(line: &mut [u8], kind: AddedErrorKind) -> usize
    requires { 128 ≤ length line.old }
    ensures { Wrote (refusal_line (added_number kind) none) result line.old line.new × (result ≤ 107) }
{
    put_no(line, err_added::number(kind), None)
}

// `ok` and a number.
pub fn put_ok(line: &mut [u8], n: u64) -> usize
    requires { 128 ≤ length line.old }
    ensures { Wrote (ok_line n) result line.old line.new × (result ≤ 23) }
{
    let at = add(line, 0, b"ok");
    add_number(line, at, n)
}

// `ok`, the kind and an offset or a length.
pub fn put_kind(line: &mut [u8], kind: u64, n: usize) -> usize
    requires { 128 ≤ length line.old }
    ensures { Wrote (kind_line kind n) result line.old line.new × (result ≤ 44) }
{
    let at = put_ok(line, kind);
    add_number(line, at, n as u64)
}

// Three numbers: an integer's base and the ends of its digits, a float's ends, or its counts of digits.
fn add_three(line: &mut [u8], at: usize, a: u64, b: u64, d: u64) -> usize
    requires { at + 63 ≤ length line.old }
    ensures { Added (number_piece a ++ (number_piece b ++ number_piece d)) at result line.old line.new × (result ≤ at + 63) }
{
    let next = add_number(line, at, a);
    let last = add_number(line, next, b);
    add_number(line, last, d)
}

// Hashes, `-` where it is not raw.
fn add_hashes(line: &mut [u8], at: usize, hashes: Option<u8>) -> usize
    requires { at + 21 ≤ length line.old }
    ensures { Added (hashes_piece (hashes_of hashes)) at result line.old line.new × (result ≤ at + 21) }
{
    match hashes {
        None => add(line, at, b" -"),
        Some(n) => add_number(line, at, u64::from(n)),
    }
}

// The line of a string, a byte string or a C string.
fn put_string(line: &mut [u8], kind: u64, l: StringLit) -> usize
    requires { 128 ≤ length line.old }
    ensures { Wrote (reading_line (accepted kind l.start_suffix (values_of_string l))) result line.old line.new × (result ≤ 107) }
{
    let at = put_kind(line, kind, l.start_suffix);
    let next = add_hashes(line, at, l.hashes);
    add_number(line, next, l.value_len as u64)
}

// The line of a literal.
pub fn put_literal(line: &mut [u8], lit: Literal) -> usize
    requires { 128 ≤ length line.old }
    ensures { Wrote (reading_line (outcome_of (Ok lit))) result line.old line.new × (result ≤ 107) }
{
    match lit {
        Literal::Bool(l) => {
            let at = put_kind(line, 1, l.end);
            add_number(line, at, u64::from(l.value))
        }
        Literal::Integer(l) => {
            let at = put_kind(line, 2, l.end_main_part);
            let base = u64::from(l.base.value());
            add_three(
                line,
                at,
                base,
                l.start_main_part as u64,
                l.end_main_part as u64,
            )
        }
        Literal::Float(l) => {
            let at = put_kind(line, 3, l.end_number_part);
            let end = l.end_number_part as u64;
            add_three(
                line,
                at,
                l.end_integer_part as u64,
                l.end_fractional_part as u64,
                end,
            )
        }
        Literal::Char(l) => {
            let at = put_kind(line, 4, l.start_suffix);
            add_number(line, at, u64::from(l.value))
        }
        Literal::String(l) => put_string(line, 5, l),
        Literal::Byte(l) => {
            let at = put_kind(line, 6, l.start_suffix);
            add_number(line, at, u64::from(l.value))
        }
        Literal::ByteString(l) => put_string(line, 7, l),
        Literal::CString(l) => put_string(line, 8, l),
    }
}

// The line of a reading.
pub fn put_reading(line: &mut [u8], r: Reading) -> usize
    requires { 128 ≤ length line.old }
    ensures { Wrote (reading_line (outcome_of r)) result line.old line.new × (result ≤ 107) }
{
    match r {
        Ok(lit) => put_literal(line, lit),
        Err(error) => put_refusal(line, error),
    }
}

// The counts of digits, if it is a number.
pub fn add_counts(line: &mut [u8], at: usize, r: Reading) -> usize
    requires { at + 63 ≤ length line.old }
    ensures { Added (counts_piece (counts_of r)) at result line.old line.new × (result ≤ at + 63) }
{
    match r {
        Ok(Literal::Integer(l)) => add_number(line, at, l.digits as u64),
        Ok(Literal::Float(l)) => add_three(
            line,
            at,
            l.integer_digits as u64,
            l.fractional_digits as u64,
            l.exponent_digits as u64,
        ),
        _ => at,
    }
}

// Some bytes in hexadecimal.
fn add_hexes(line: &mut [u8], at: usize, bytes: &[u8]) -> usize
    requires { at + 2 * length bytes.now ≤ length line.old }
    ensures { Added (hexes bytes.now) at result line.old line.new }
{
    let mut end = at;
    for b in bytes {
        end += buffer::put_hex(&mut line[end..], *b);
    }
    end
}

// A space and some bytes in hexadecimal, `-` where there are none.
pub fn add_hex(line: &mut [u8], at: usize, bytes: &[u8]) -> usize
    requires { at + (2 + 2 * length bytes.now) ≤ length line.old }
    ensures { Added (hex_piece bytes.now) at result line.old line.new × (result ≤ at + (2 + 2 * length bytes.now)) }
{
    if bytes.is_empty() {
        return add(line, at, b" -");
    }
    let from = add(line, at, b" ");
    add_hexes(line, from, bytes)
}

// Every byte of a buffer from an offset on is 165 still.
fn is_kept(out: &[u8], from: usize) -> bool
    ensures { result ≡ kept (drop from out.now) }
{
    out.iter().skip(from).all(|b| *b == 165)
}

// Whether a buffer after its first bytes is as it was.
pub fn add_kept(line: &mut [u8], at: usize, out: &[u8], from: usize) -> usize
    requires { at + 8 ≤ length line.old }
    ensures { Added (kept_piece (drop from out.now)) at result line.old line.new × (result ≤ at + 8) }
{
    if is_kept(out, from) {
        return add(line, at, b" kept");
    }
    add(line, at, b" changed")
}
