// The value of an integer literal at a type.
#![tactic(auto)]

ghost use Rattle.std.specs.Prelude.{◌≡◌, ◌+◌, ◌*◌, ◌/◌, ◌≤◌, leb, length};
ghost use Rattle.std.proofs.Math.Seq.{slice};
ghost use Rattle.err.specs.Reading.{base_of};
ghost use Rattle.parse.specs.Class.{class_of};
ghost use Rattle.integer_value.specs.Value.{number, number_within, bounded, valued_of};

use err::{IntegerBase, IntegerLit, ParseError, ParseErrorKind};

// Whether a number with one digit more is at most the largest, which divided by the base is `quotient`.
fn is_within(n: u64, d: u64, by: u64, largest: u64, quotient: u64) -> bool
    requires { (quotient ≡ largest / by) × (2 ≤ by) }
    ensures { result ≡ leb (n * by + d) largest }
{
    if quotient < n {
        return false;
    }
    d <= largest - n * by
}

// The class of a byte. That of a decimal digit is told first: most digits are decimal, and the tests of the others stay out of their way.
fn digit_class(b: u8) -> u8
    ensures { result ≡ class_of b }
{
    if parse::is_decimal(b) {
        return b - b'0';
    }
    parse::class_of(b)
}

// The digits' number, if it is at most the largest. One pass, left at the digit that passes it.
pub fn number_within(digits: &[u8], base: IntegerBase, largest: u64) -> Option<u64>
    ensures { result ≡ number_within largest (number (base_of base) digits.now) }
{
    let by = u64::from(base.value());
    let quotient = largest / by;
    let mut n: u64 = 0;
    for b in digits {
        if *b == b'_' {
            continue;
        }
        let d = u64::from(digit_class(*b));
        if !is_within(n, d, by, largest, quotient) {
            return None;
        }
        n = n * by + d;
    }
    Some(n)
}

// The value of a literal whose ends lie in the text, where it is at most the type's largest.
pub fn value_of(text: &[u8], lit: IntegerLit, largest: u64) -> Result<u64, ParseError>
    requires { (lit.start_main_part ≤ lit.end_main_part) × (lit.end_main_part ≤ length text.now) }
    ensures { valued_of result ≡ bounded largest (number (base_of lit.base) (slice lit.start_main_part lit.end_main_part text.now)) }
{
    let start = lit.start_main_part;
    let end = lit.end_main_part;
    let base = lit.base;
    let no_value = err::perr_nowhere(ParseErrorKind::NoValue);
    number_within(&text[start..end], base, largest).ok_or(no_value)
}
