// Integer literals: their base and digits, and their suffix.
#![tactic(auto)]

ghost use Rattle.std.specs.Prelude.{◌≡◌, ◌≤◌, length, Ok};
ghost use Rattle.err.specs.Reading.{base_of, prefix_of};
ghost use Rattle.err.specs.Counts.{kept_counts};
ghost use Rattle.parse.specs.Digits.{DigitScan};
ghost use Rattle.digits.specs.Counts.{digit_counts};
ghost use Rattle.integer.specs.Integer.{base_at, Scanned, parsed_of, parsed_counts, after_suffix, integer_at, integer_read};

use err::{IntegerBase, IntegerLit, ParseError, ParseErrorKind};
use parse::DigitRun;

// The base that the first two bytes announce.
#[tactic(auto, unfolding(crate::specs::Integer::base_at))]
fn base_of(text: &[u8]) -> IntegerBase
    ensures { (base_of result ≡ base_at text.now) × (length (prefix_of result) ≤ length text.now) }
{
    if text.starts_with(IntegerBase::Binary.prefix()) {
        return IntegerBase::Binary;
    }
    if text.starts_with(IntegerBase::Octal.prefix()) {
        return IntegerBase::Octal;
    }
    if text.starts_with(IntegerBase::Hexadecimal.prefix()) {
        return IntegerBase::Hexadecimal;
    }
    IntegerBase::Decimal
}

// The digits and `_` at the front.
fn main_part(s: &[u8], base: IntegerBase) -> DigitRun
    ensures { DigitScan (base_of base) s.now result }
{
    let IntegerBase::Decimal = base else {
        return parse::digit_run(s, base.value());
    };
    digits::end_dec_digits(s)
}

// The base, where the digits start and end, and how many there are.
fn scan(text: &[u8]) -> IntegerLit
    ensures { Scanned result text.now }
{
    let base = base_of(text);
    let start = base.prefix().len();
    let main = main_part(&text[start..], base);
    IntegerLit {
        base,
        start_main_part: start,
        end_main_part: start + main.end,
        digits: main.digits,
    }
}

// The literal where its suffix is good, or the suffix's refusal.
fn check_end(text: &[u8], lit: IntegerLit) -> Result<IntegerLit, ParseError>
    requires { lit.end_main_part ≤ length text.now }
    ensures outcome { parsed_of result ≡ after_suffix text.now lit.end_main_part (parsed_of (Ok lit)) }
    ensures counts { parsed_counts result ≡ kept_counts (parsed_counts (Ok lit)) (parsed_of result) }
{
    let end = lit.end_main_part;
    // most literals have no suffix
    if end == text.len() {
        return Ok(lit);
    }
    let Err(kind) = suffix::check_suffix(&text[end..]) else {
        return Ok(lit);
    };
    if parse::is_decimal(scan::byte_at(text, end)) {
        return Err(err::perr(ParseErrorKind::InvalidDigit, end, end + 1));
    }
    Err(err::perr(kind, end, text.len()))
}

// Of a text whose first byte is a decimal digit.
fn parse_impl(text: &[u8]) -> Result<IntegerLit, ParseError>
    ensures outcome { parsed_of result ≡ integer_at text.now }
    ensures counts { parsed_counts result ≡ digit_counts text.now (parsed_of result) }
{
    let lit = check_end(text, scan(text))?;
    let start = lit.start_main_part;
    let end = lit.end_main_part;
    if parse::has_e(text, end) {
        let n = end - start;
        return Err(err::perr(ParseErrorKind::IntegerSuffixStartingWithE, n, n + 1));
    }
    if lit.digits == 0 {
        return Err(err::perr(ParseErrorKind::NoDigits, start, end));
    }
    Ok(lit)
}

// litrs's `IntegerLit::parse`; the digits are counted besides (02, d).
pub fn parse(text: &[u8]) -> Result<IntegerLit, ParseError>
    ensures outcome { parsed_of result ≡ integer_read text.now }
    ensures counts { parsed_counts result ≡ digit_counts text.now (integer_read text.now) }
{
    match text.first() {
        None => Err(err::perr_nowhere(ParseErrorKind::Empty)),
        Some(b) if parse::is_decimal(*b) => parse_impl(text),
        Some(_) => Err(err::perr(ParseErrorKind::DoesNotStartWithDigit, 0, 1)),
    }
}
