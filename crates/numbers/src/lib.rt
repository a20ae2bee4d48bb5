// Results in numbers, as C gets them: 100,000 plus a refusal's number, and what a reading holds.
#![tactic(auto)]

ghost use Rattle.std.specs.Prelude.{◌≡◌, ◌+◌, Ok};
ghost use Rattle.err.specs.Numbers.{number_of};
ghost use Rattle.err.specs.Outcome.{refused, none};
ghost use Rattle.err.specs.Reading.{refusal_of, outcome_of, kind_in, suffix_in};
ghost use Rattle.err.specs.Counts.{no_counts, counts_of};
ghost use Rattle.err_added.specs.Numbers.{added_number};
ghost use Rattle.numbers.specs.Numbers.{string_numbers, reading_numbers};

use err::{FloatLit, IntegerLit, Literal, ParseError, ParseErrorKind, Reading, StringLit};
use err_added::AddedErrorKind;

// 100,000 plus the refusal number.
pub fn refusal(kind: ParseErrorKind) -> usize
    ensures { result ≡ 100000 + number_of kind }
{
    100000 + err::number(kind) as usize
}

// The kind of an accepted reading; 0 of a refused one.
pub fn kind_of(found: Reading) -> u8
    ensures { result ≡ kind_in (outcome_of found) }
{
    match found {
        Ok(lit) => lit.kind().code(),
        Err(_) => 0,
    }
}

// Where the suffix of an accepted reading starts; 0 of a refused one.
pub fn suffix_start(found: Reading) -> usize
    ensures { result ≡ suffix_in (outcome_of found) }
{
    match found {
        Ok(lit) => lit.start_suffix(),
        _ => 0,
    }
}

// A refusal in eight numbers: 0, its number and its span.
fn error_numbers(error: ParseError) -> [u64; 8]
    ensures { result ≡ reading_numbers (refusal_of error) no_counts }
{
    let number = u64::from(err::number(error.kind));
    match error.span {
        None => [0, number, 0, 0, 0, 0, 0, 0],
        Some(span) => [0, number, 1, span.start as u64, span.end as u64, 0, 0, 0],
    }
}

// A refusal from 50 on in eight numbers.
pub fn added_numbers(kind: AddedErrorKind) -> [u64; 8]
    ensures { result ≡ reading_numbers (refused (added_number kind) none) no_counts }
{
    [0, u64::from(err_added::number(kind)), 0, 0, 0, 0, 0, 0]
}

// A literal of kind 5, 7 or 8 in eight numbers.
fn string_numbers(kind: u64, lit: StringLit) -> [u64; 8]
    ensures { result ≡ string_numbers kind lit }
{
    let n = lit.value_len as u64;
    let start = lit.start_suffix as u64;
    match lit.hashes {
        None => [kind, start, 0, 0, n, 0, 0, 0],
        Some(h) => [kind, start, 1, u64::from(h), n, 0, 0, 0],
    }
}

// An integer in eight numbers.
fn integer_numbers(lit: IntegerLit) -> [u64; 8]
    ensures { result ≡ reading_numbers (outcome_of (Ok (Literal.Integer lit))) (counts_of (Ok (Literal.Integer lit))) }
{
    let base = lit.base;
    let start = lit.start_main_part as u64;
    let end = lit.end_main_part as u64;
    let digits = lit.digits as u64;
    [2, end, u64::from(base.value()), start, end, digits, 0, 0]
}

// A float in eight numbers.
fn float_numbers(lit: FloatLit) -> [u64; 8]
    ensures { result ≡ reading_numbers (outcome_of (Ok (Literal.Float lit))) (counts_of (Ok (Literal.Float lit))) }
{
    let end = lit.end_number_part as u64;
    [
        3,
        end,
        lit.end_integer_part as u64,
        lit.end_fractional_part as u64,
        end,
        lit.integer_digits as u64,
        lit.fractional_digits as u64,
        lit.exponent_digits as u64,
    ]
}

// A reading in eight numbers: kind, start of suffix, values and counts of digits; or 0, the refusal number and the span.
pub fn reading_numbers(found: Reading) -> [u64; 8]
    ensures { result ≡ reading_numbers (outcome_of found) (counts_of found) }
{
    match found {
        Err(error) => error_numbers(error),
        Ok(Literal::Bool(l)) => [1, l.end as u64, u64::from(l.value), 0, 0, 0, 0, 0],
        Ok(Literal::Integer(l)) => integer_numbers(l),
        Ok(Literal::Float(l)) => float_numbers(l),
        Ok(Literal::Char(l)) => [4, l.start_suffix as u64, u64::from(l.value), 0, 0, 0, 0, 0],
        Ok(Literal::String(l)) => string_numbers(5, l),
        Ok(Literal::Byte(l)) => [6, l.start_suffix as u64, u64::from(l.value), 0, 0, 0, 0, 0],
        Ok(Literal::ByteString(l)) => string_numbers(7, l),
        Ok(Literal::CString(l)) => string_numbers(8, l),
    }
}
