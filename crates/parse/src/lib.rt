// The class of each byte, and the scans by class.
#![tactic(auto)]

ghost use Rattle.std.specs.Prelude.{◌≡◌, ◌<◌};
ghost use Rattle.parse.specs.Class.{class_of};
ghost use Rattle.parse.specs.Sets.{dec_digit, in_suffix_rest, in_blanks, hex_digit_of, starts_e};
ghost use Rattle.parse.specs.Digits.{DigitScan};

use scan::ByteSet;

// Below `0`.
#[tactic(auto, using(crate::proofs::Classes::class_low))]
fn low_class(b: u8) -> u8
    requires { b < 48 }
    ensures { result ≡ class_of b }
{
    match b {
        b' ' | b'\t' | b'\n' => 18,
        _ => 19,
    }
}

// Above `Z` and below `a`.
#[tactic(auto, using(crate::proofs::Classes::class_middle))]
fn middle_class(b: u8) -> u8
    requires { (90 < b) × (b < 97) }
    ensures { result ≡ class_of b }
{
    if b == b'_' { 16 } else { 19 }
}

// The class of a byte, by comparisons (02, e). 01's list: hex digit value 0 to 15; 16 `_`; 17 other ASCII letter; 18 space, tab, LF;
// 19 other ASCII; 20 above 127.
pub fn class_of(b: u8) -> u8
    ensures { result ≡ class_of b }
{
    if b <= b'9' {
        if b < b'0' {
            return low_class(b);
        }
        return b - 48;
    }
    if b <= b'F' {
        if b < b'A' {
            return 19;
        }
        return b - 55;
    }
    if b < b'a' {
        if b <= b'Z' {
            return 17;
        }
        return middle_class(b);
    }
    if b <= b'f' {
        return b - 87;
    }
    if b <= b'z' {
        return 17;
    }
    if b < 128 { 19 } else { 20 }
}

// Where digits and `_` at the front of a text end, and how many of these bytes are digits.
#[derive(Clone, Copy)]
pub struct DigitRun {
    pub end: usize,
    pub digits: usize,
}

// The digits of a base, at most 16, and `_`, at the front.
pub fn digit_run(s: &[u8], base: u8) -> DigitRun
    ensures { DigitScan base s.now result }
{
    let mut digits = 0;
    for (i, b) in s.iter().enumerate() {
        let class = class_of(*b);
        if class < base {
            digits += 1;
        } else if class != 16 {
            return DigitRun { end: i, digits };
        }
    }
    DigitRun {
        end: s.len(),
        digits,
    }
}

// What may follow in a suffix.
#[derive(Clone, Copy)]
pub struct SuffixRest;

impl ByteSet for SuffixRest {
    ghost holds = { in_suffix_rest };

    #[tactic(auto, unfolding(crate::specs::Sets::suffix_rest))]
    fn contains(self, b: u8) -> bool {
        let class = class_of(b);
        class == 20 || class < 18
    }
}

// What a dropped line break drops.
#[derive(Clone, Copy)]
pub struct Blanks;

impl ByteSet for Blanks {
    ghost holds = { in_blanks };

    #[tactic(auto, unfolding(crate::specs::Sets::blank))]
    fn contains(self, b: u8) -> bool {
        class_of(b) == 18
    }
}

// litrs's `hex_digit_value`.
#[tactic(auto, unfolding(crate::specs::Sets::hex_digit_of))]
pub fn hex_digit_value(digit: u8) -> Option<u8>
    ensures { result ≡ hex_digit_of digit }
{
    let class = class_of(digit);
    if class < 16 { Some(class) } else { None }
}

// Whether a byte is a decimal digit.
#[tactic(auto, using(crate::proofs::Classes::dec_digit_is))]
pub fn is_decimal(b: u8) -> bool
    ensures { result ≡ dec_digit b }
{
    b.is_ascii_digit()
}

// Whether `e` or `E` stands at an offset.
#[tactic(auto, unfolding(crate::specs::Sets::starts_e))]
pub fn has_e(s: &[u8], at: usize) -> bool
    ensures { result ≡ starts_e s.now at }
{
    matches!(s.get(at), Some(b'e' | b'E'))
}
