// The scan of decimal digits.
#![tactic(auto)]

ghost use Rattle.std.specs.Prelude.{◌≡◌, cond, ◌+◌, ◌≤◌, length};
ghost use Rattle.scan.specs.Run.{count_not};
ghost use Rattle.parse.specs.Sets.{digit};
ghost use Rattle.parse.specs.Digits.{is_digit, digit_count, DigitScan};
ghost use Rattle.digits.specs.Scan.{ScanFrom};

use parse::DigitRun;

// A decimal digit or `_`.
#[tactic(auto, using(parse::proofs::Classes::digit_ten, parse::proofs::Classes::dec_digit_is))]
fn is_dec_or_underscore(b: u8) -> bool
    ensures { result ≡ digit 10 b }
{
    b == b'_' || b.is_ascii_digit()
}

// 1 for a byte that is neither a decimal digit nor `_`, else 0.
fn not_digit(b: u8) -> u8
    ensures { (result ≤ 1) × (result ≡ cond (digit 10 b) 0 1) }
{
    u8::from(!is_dec_or_underscore(b))
}

// 1 for a decimal digit, else 0.
#[tactic(auto, unfolding(parse::specs::Sets::dec_digit, parse::specs::Digits::is_digit))]
fn one_digit(b: u8) -> u8
    ensures { (result ≤ 1) × (result ≡ cond (is_digit 10 b) 1 0) }
{
    u8::from(parse::is_decimal(b))
}

// Of some bytes: how many are neither decimal digits nor `_`, and how many are decimal digits.
#[derive(Clone, Copy)]
pub struct Block {
    pub others: u8,
    pub digits: u8,
}

// Counts a block; branch-free, with sums of one byte, so that LLVM vectorises it.
#[tactic(auto, using(scan::proofs::Runs::outs_end, scan::proofs::Counts::count_end), unfolding(parse::specs::Digits::digit_count))]
fn count_block(s: &[u8]) -> Block
    requires { length s.now ≤ 255 }
    ensures { (result.others ≡ count_not (digit 10) s.now) × (result.digits ≡ digit_count 10 s.now) }
{
    let mut others: u8 = 0;
    let mut digits: u8 = 0;
    for &b in s {
        others += not_digit(b);
        digits += one_digit(b);
    }
    Block { others, digits }
}

// The decimal digits and `_` from an offset on, byte by byte; `before` digits stand before it.
fn dec_digits_from(s: &[u8], from: usize, before: usize) -> DigitRun
    requires { (from ≤ length s.now) × (before ≤ from) }
    ensures { ScanFrom from before s.now result }
{
    let mut digits = before;
    for (i, b) in s[from..].iter().enumerate() {
        if !is_dec_or_underscore(*b) {
            return DigitRun {
                end: from + i,
                digits,
            };
        }
        digits += usize::from(one_digit(*b));
    }
    DigitRun {
        end: s.len(),
        digits,
    }
}

// litrs's `end_dec_digits`: the index of the first byte that is neither a decimal digit nor `_`, or the length. Besides, how many of the bytes before it are
// digits (02, d). By blocks while there are 64 bytes, then byte by byte.
pub fn end_dec_digits(s: &[u8]) -> DigitRun
    ensures { DigitScan 10 s.now result }
{
    let mut digits = 0;
    let mut i = 0;
    while let Some(bytes) = s.get(i..i + 64) {
        let block = count_block(bytes);
        if block.others != 0 {
            return dec_digits_from(s, i, digits);
        }
        digits += usize::from(block.digits);
        i += 64;
    }
    dec_digits_from(s, i, digits)
}
