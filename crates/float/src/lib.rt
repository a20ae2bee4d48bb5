// Float literals: integer part, fraction, exponent and suffix.
#![tactic(auto)]

ghost use Rattle.std.specs.Prelude.{◌≡◌, ◌≤◌, ◌<◌, length, Ok};
ghost use Rattle.err.specs.Counts.{kept_counts};
ghost use Rattle.digits.specs.Counts.{digit_counts};
ghost use Rattle.float.specs.Float.{parsed_of, not_integer, bad_fraction, sign_end, fraction_end, exponent_end, after_number, after_integer, float_read};
ghost use Rattle.float.specs.Counts.{parsed_counts, PartScan};

use err::{FloatLit, ParseError, ParseErrorKind};
use parse::DigitRun;

// A literal with neither fraction nor exponent is an integer's.
#[tactic(auto, unfolding(crate::specs::Float::not_integer))]
fn not_integer(lit: FloatLit) -> Result<FloatLit, ParseError>
    ensures outcome { parsed_of result ≡ not_integer lit.end_integer_part lit.end_fractional_part lit.end_number_part }
    ensures counts { parsed_counts result ≡ kept_counts (parsed_counts (Ok lit)) (parsed_of result) }
{
    if lit.end_integer_part == lit.end_number_part {
        return Err(err::perr_nowhere(ParseErrorKind::UnexpectedIntegerLit));
    }
    Ok(lit)
}

// After the number: the suffix.
fn after_number(text: &[u8], lit: FloatLit) -> Result<FloatLit, ParseError>
    requires { lit.end_number_part ≤ length text.now }
    ensures outcome { parsed_of result ≡ after_number text.now lit.end_integer_part lit.end_fractional_part lit.end_number_part }
    ensures counts { parsed_counts result ≡ kept_counts (parsed_counts (Ok lit)) (parsed_of result) }
{
    let end = lit.end_number_part;
    // most literals have no suffix
    if end == text.len() {
        return not_integer(lit);
    }
    let Err(kind) = suffix::check_suffix(&text[end..]) else {
        return not_integer(lit);
    };
    Err(err::perr(kind, end, text.len()))
}

// Where the exponent's digits start: after `e` and its sign, if it has one.
#[tactic(auto, unfolding(crate::specs::Float::sign_end))]
fn sign_end(text: &[u8], at: usize) -> usize
    requires { at < length text.now }
    ensures { (result ≡ sign_end text.now at) × (result ≤ length text.now) }
{
    let next = at + 1;
    match text.get(next) {
        Some(b'-' | b'+') => next + 1,
        _ => next,
    }
}

// Whether what stands after the period may not: `_`, or, where no digit follows, anything.
#[tactic(auto, unfolding(crate::specs::Float::bad_fraction))]
fn bad_fraction(text: &[u8], from: usize, end: usize) -> bool
    ensures { result ≡ bad_fraction text.now from end }
{
    if scan::byte_at(text, from) == b'_' {
        return true;
    }
    if end != from {
        return false;
    }
    from < text.len()
}

// The fraction, if there is a period: where it ends, after the period and its digits, and how many digits it has.
fn fraction_end(text: &[u8], i: usize) -> DigitRun
    requires { i ≤ length text.now }
    ensures { PartScan i (fraction_end text.now i) text.now result }
{
    if scan::byte_at(text, i) != b'.' {
        return DigitRun { end: i, digits: 0 };
    }
    let from = i + 1;
    let run = digits::end_dec_digits(&text[from..]);
    DigitRun {
        end: from + run.end,
        digits: run.digits,
    }
}

// The exponent, if there is an `e`: where it ends, after `e`, its sign and its digits, and how many digits it has.
fn exponent_end(text: &[u8], f: usize) -> DigitRun
    requires { f ≤ length text.now }
    ensures { PartScan f (exponent_end text.now f) text.now result }
{
    if !parse::has_e(text, f) {
        return DigitRun { end: f, digits: 0 };
    }
    let from = sign_end(text, f);
    let run = digits::end_dec_digits(&text[from..]);
    DigitRun {
        end: from + run.end,
        digits: run.digits,
    }
}

// After the integer part: fraction, exponent and suffix.
fn after_integer(text: &[u8], whole: DigitRun) -> Result<FloatLit, ParseError>
    requires { PartScan 0 whole.end text.now whole }
    ensures outcome { parsed_of result ≡ after_integer text.now whole.end }
    ensures counts { parsed_counts result ≡ digit_counts text.now (parsed_of result) }
{
    let i = whole.end;
    let fraction = fraction_end(text, i);
    let f = fraction.end;
    if i < f {
        let from = i + 1;
        if bad_fraction(text, from, f) {
            return Err(err::perr(ParseErrorKind::UnexpectedChar, from, from + 1));
        }
    }
    let exponent = exponent_end(text, f);
    let end = exponent.end;
    if f < end {
        if exponent.digits == 0 {
            return Err(err::perr(ParseErrorKind::NoExponentDigits, f, end));
        }
    }
    after_number(
        text,
        FloatLit {
            end_integer_part: i,
            end_fractional_part: f,
            end_number_part: end,
            integer_digits: whole.digits,
            fractional_digits: fraction.digits,
            exponent_digits: exponent.digits,
        },
    )
}

// litrs's `FloatLit::parse`; the digits are counted besides (02, d).
pub fn parse(text: &[u8]) -> Result<FloatLit, ParseError>
    ensures outcome { parsed_of result ≡ float_read text.now }
    ensures counts { parsed_counts result ≡ digit_counts text.now (float_read text.now) }
{
    match text.first() {
        None => Err(err::perr_nowhere(ParseErrorKind::Empty)),
        Some(b) if parse::is_decimal(*b) => after_integer(text, digits::end_dec_digits(text)),
        Some(_) => Err(err::perr(ParseErrorKind::DoesNotStartWithDigit, 0, 1)),
    }
}
