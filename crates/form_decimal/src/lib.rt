// The reduced number of a float: where its digits stand in the text, and its power of ten, found in a few passes.
#![tactic(auto)]

ghost use Rattle.std.specs.Prelude.{◌≡◌, cond, ◌≤◌, length, take, drop};
ghost use Rattle.scan.specs.Run.{run};
ghost use Rattle.grammar.specs.Notation.{begins, byte};
ghost use Rattle.grammar.specs.Numbers.{SIGN};
ghost use Rattle.parse.specs.Sets.{dec_digit};
ghost use Rattle.integer_value.specs.Value.{number};
ghost use Rattle.form_decimal.specs.Digits.{significant, insignificant, digits_of, last_end};
ghost use Rattle.form_decimal.specs.Scaled.{decimal_of, FloatOf, clamped, Scales, scaling_by, exponent_start};

use err::{FloatLit, IntegerBase};

// Where the digits of the reduced number stand in the mantissa, and its power of ten: sign and size, as the form writes them.
#[derive(Clone, Copy)]
pub struct Scaled {
    pub first: usize,
    pub last: usize,
    pub negative: bool,
    pub power: u64,
}

// What scaling finds: the number 0, a power that is too far, or the reduced number. Three cases, each with a form or a refusal of its own.
#[derive(Clone, Copy)]
pub enum Scaling {
    Zero,
    TooFar,
    To(Scaled),
}

// An exponent: its sign, and its size, where all sizes above 2,000,000 are one.
#[derive(Clone, Copy)]
pub struct Exponent {
    pub negative: bool,
    pub size: u64,
}

// Whether a byte is a digit other than 0.
#[tactic(auto, unfolding(crate::specs::Digits::significant))]
fn is_significant(b: u8) -> bool
    ensures { result ≡ significant b }
{
    if b < b'1' {
        return false;
    }
    b <= b'9'
}

// How many bytes stand before the first significant digit.
fn lead_len(s: &[u8]) -> usize
    ensures { result ≡ run insignificant s.now }
{
    s.iter().position(|b| is_significant(*b)).unwrap_or(s.len())
}

// Where the last significant digit ends.
fn last_end(s: &[u8]) -> usize
    ensures { result ≡ last_end s.now }
{
    match s.iter().rposition(|b| is_significant(*b)) {
        Some(i) => i + 1,
        None => 0,
    }
}

// How many of at most 255 bytes are digits. Branch-free, with a sum of one byte, so that LLVM vectorises it.
pub fn count(s: &[u8]) -> u8
    requires { length s.now ≤ 255 }
    ensures { result ≡ length (digits_of s.now) }
{
    let mut n: u8 = 0;
    for b in s {
        n += u8::from(parse::is_decimal(*b));
    }
    n
}

// How many digits there are, by blocks of 64 bytes.
pub fn digits_len(s: &[u8]) -> usize
    ensures { (result ≡ length (digits_of s.now)) × (result ≤ length s.now) }
{
    let mut n: usize = 0;
    for block in s.chunks(64) {
        n += usize::from(count(block));
    }
    n
}

// The number that an exponent's digits write, clamped to 2,000,001.
#[tactic(auto, unfolding(crate::specs::Scaled::clamped))]
fn size_of(digits: &[u8]) -> u64
    ensures { result ≡ clamped (number 10 digits.now) }
{
    integer_value::number_within(digits, IntegerBase::Decimal, 2000000).unwrap_or(2000001)
}

// What stands after the `e`.
fn exponent_of(ex: &[u8]) -> Exponent
    ensures { (result.negative ≡ begins (byte 45) ex.now) × (result.size ≡ clamped (number 10 (cond (begins SIGN ex.now) (drop 1 ex.now) ex.now))) }
{
    match ex {
        [b'-', digits @ ..] => Exponent {
            negative: true,
            size: size_of(digits),
        },
        [b'+', digits @ ..] => Exponent {
            negative: false,
            size: size_of(digits),
        },
        _ => Exponent {
            negative: false,
            size: size_of(ex),
        },
    }
}

// The power that is `up` less `down`, where it is within 1,000,000 either way.
fn to_power(first: usize, last: usize, up: u64, down: u64) -> Scaling
    ensures { result ≡ scaling_by first last up down }
{
    if up < down {
        if 1000000 < down - up {
            return Scaling::TooFar;
        }
        return Scaling::To(Scaled {
            first,
            last,
            negative: true,
            power: down - up,
        });
    }
    if 1000000 < up - down {
        return Scaling::TooFar;
    }
    Scaling::To(Scaled {
        first,
        last,
        negative: false,
        power: up - down,
    })
}

// The reduced number of a float that was read from the text.
pub fn scale(text: &[u8], lit: FloatLit) -> Scaling
    requires { FloatOf text.now lit }
    ensures { Scales (take lit.end_fractional_part text.now) (decimal_of text.now lit) result }
{
    let whole = lit.end_integer_part;
    let end = lit.end_fractional_part;
    let mantissa = &text[..end];
    let last = last_end(mantissa);
    if last == 0 {
        return Scaling::Zero;
    }
    let first = lead_len(mantissa);
    let zeros = digits_len(&text[last..end]) as u64;
    let places = digits_len(&text[whole..end]) as u64;
    let stop = lit.end_number_part;
    let start = exponent_start(end, stop);
    let ex = exponent_of(&text[start..stop]);
    if ex.negative {
        return to_power(first, last, zeros, ex.size + places);
    }
    to_power(first, last, ex.size + zeros, places)
}

// After the `e`, where there is one.
fn exponent_start(end: usize, stop: usize) -> usize
    requires { end ≤ stop }
    ensures { (result ≤ stop) × (result ≡ exponent_start end stop) }
{
    if end < stop {
        return end + 1;
    }
    end
}
