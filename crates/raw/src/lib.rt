// Raw strings: the body is scanned for the quote that closes it.
#![tactic(auto)]

ghost use Rattle.std.specs.Prelude.{◌≡◌, cond, ◌+◌, ◌≤◌, ◌<◌, leb, length, get_or, drop};
ghost use Rattle.scan.specs.Run.{run};
ghost use Rattle.scan.specs.Sets.{only};
ghost use Rattle.body.specs.Packed.{Stopped};
ghost use Rattle.body.specs.Step.{stop, end_of, next_of};
ghost use Rattle.body.specs.Body.{Measures};
ghost use Rattle.body.specs.Quote.{quote_of};
ghost use Rattle.raw.specs.Raw.{raw_step_of, raw_body, raw_of};
ghost use Rattle.raw.specs.Scan.{raw_plain, closing_byte, passes, flags, raw_run};

use body::{Ending, Measured, Step};
use err::{ParseError, ParseErrorKind, StringLit};
use escape::{Allowed, Unescaped};
use scan::Only;

// What stands at i of a raw body with h hashes.
fn raw_step(s: &[u8], i: usize, h: usize, k: Allowed) -> Step
    ensures { next_of result ≡ raw_step_of k h (drop i s.now) }
{
    if s.len() <= i {
        return Err(err::perr_nowhere(ParseErrorKind::UnterminatedRawString));
    }
    let b = s[i];
    if b != b'"' {
        return body::plain(b, k);
    }
    let next = i + 1;
    if h <= scan::run_len(&s[next..], Only(b'#')) {
        return Ok(None);
    }
    Ok(Some((Unescaped::Byte(b'"'), 1)))
}

// Whether h hashes stand at an offset.
fn has_hashes(s: &[u8], from: usize, h: usize) -> bool
    requires { from ≤ length s.now }
    ensures { result ≡ leb h (run (only 35) (drop from s.now)) }
{
    if s.len() - from < h {
        return false;
    }
    let end = from + h;
    s[from..end].iter().all(|b| *b == b'#')
}

// Why a raw body ends where no piece is: at its closing quote, as almost all do, or by litrs's step.
fn raw_ending_at(s: &[u8], at: usize, h: usize, k: Allowed) -> Ending
    requires { Stopped (raw_step_of k h (drop at s.now)) }
    ensures { stop (end_of result) ≡ raw_step_of k h (drop at s.now) }
{
    if scan::byte_at(s, at) == b'"' {
        return Ok(());
    }
    // the step has no piece
    raw_step(s, at, h, k)?;
    Ok(())
}

// What stands h bytes after a quote that closes.
fn closing_byte(h: usize) -> u8
    ensures { result ≡ closing_byte h }
{
    if h == 0 { b'"' } else { b'#' }
}

// Whether a raw body may hold a byte.
fn is_raw_plain(b: u8, k: Allowed) -> bool
    ensures { result ≡ raw_plain k b }
{
    if 34 < b {
        if b < 128 {
            return true;
        }
        return k.unicode();
    }
    if b == b'\r' {
        return false;
    }
    if b == 0 {
        return k.allow_nul();
    }
    true
}

// Whether the byte at i is passed over: a quote is, unless the byte h bytes after it is the closing sequence's last.
fn passes_at(s: &[u8], i: usize, h: usize, last: u8, k: Allowed) -> bool
    requires { (i < length s.now) × (h ≤ 255) }
    ensures { result ≡ passes k last (get_or s.now i 0) (get_or s.now (i + h) 0) }
{
    let b = s[i];
    if !is_raw_plain(b, k) {
        return false;
    }
    if b != b'"' {
        return true;
    }
    scan::byte_at(s, i + h) != last
}

// Where the bytes end that are passed over, byte by byte.
fn scan_from(s: &[u8], from: usize, h: usize, last: u8, k: Allowed) -> usize
    requires { (from ≤ length s.now) × (h ≤ 255) }
    ensures { result ≡ from + raw_run k h last (drop from s.now) }
{
    for i in from..s.len() {
        if !passes_at(s, i, h, last, k) {
            return i;
        }
    }
    s.len()
}

// j where the byte at j ends a scan of a block of 64 bytes, else 64. Both tests of a quote are made, and no byte is read
// under a branch, so that LLVM vectorises the loop.
fn raw_place(b: u8, far: u8, j: u8, last: u8, k: Allowed) -> u8
    ensures { result ≡ cond (passes k last b far) 64 j }
{
    if u8::from(b == b'"') + u8::from(far == last) == 2 {
        return j;
    }
    if is_raw_plain(b, k) { 64 } else { j }
}

// Where the bytes end that are passed over, in 64 bytes; `far` are those h bytes after them.
fn raw_block_run(s: &[u8], far: &[u8], last: u8, k: Allowed) -> u8
    requires { (length s.now ≡ 64) × (length far.now ≡ 64) }
    ensures { result ≡ run (only 1) (flags k last s.now far.now) }
{
    let mut m: u8 = 64;
    for j in 0..64u8 {
        m = m.min(raw_place(s[j as usize], far[j as usize], j, last, k));
    }
    m
}

// Where the bytes end that are passed over, by blocks while there are 64 bytes and h bytes after them.
fn raw_end(s: &[u8], from: usize, h: usize, last: u8, k: Allowed) -> usize
    requires { (from ≤ length s.now) × (h ≤ 255) }
    ensures { result ≡ from + raw_run k h last (drop from s.now) }
{
    let mut i = from;
    // no `for`: two blocks at once, h bytes apart, and an early exit
    while 64 + h <= s.len() - i {
        let e = i + 64;
        let a = i + h;
        let z = e + h;
        let m = raw_block_run(&s[i..e], &s[a..z], last, k);
        if m < 64 {
            return i + m as usize;
        }
        i = e;
    }
    scan_from(s, i, h, last, k)
}

// The body of a raw string with h hashes, which are counted only at quotes that may close it. It stands for its own
// bytes, so that its length is where it ends.
fn measure_raw(s: &[u8], h: usize, k: Allowed) -> Measured
    requires { h ≤ 255 }
    ensures { Measures (raw_body k h s.now) result }
{
    let last = closing_byte(h);
    let mut i = 0;
    // no `for`: a turn goes on by a length that it finds
    loop {
        let e = raw_end(s, i, h, last, k);
        if scan::byte_at(s, e) != b'"' || has_hashes(s, e + 1, h) {
            return Measured {
                at: e,
                len: e,
                end: raw_ending_at(s, e, h, k),
            };
        }
        i = e + 1;
    }
}

// A text whose hashes start at an offset, after the `r`.
pub fn scan_raw_string(text: &[u8], offset: usize, k: Allowed) -> Result<StringLit, ParseError>
    requires { offset ≤ length text.now }
    ensures { quote_of result ≡ raw_of k offset text.now }
{
    let h = scan::run_len(&text[offset..], Only(b'#'));
    let at = offset + h;
    if at == text.len() {
        return Err(err::perr_nowhere(ParseErrorKind::InvalidLiteral));
    }
    if 255 < h {
        return Err(err::perr(ParseErrorKind::TooManyHashes, offset, at));
    }
    if text[at] != b'"' {
        return Err(err::perr_nowhere(ParseErrorKind::InvalidLiteral));
    }
    let start = at + 1;
    let m = measure_raw(&text[start..], h, k);
    body::after_body(text, Some(h as u8), h + 1, start, m)
}
