// What the entries for C do (include/keybasket.h): numbers and byte slices only. None has a `requires`: any code and any bytes may be handed in. The crate
// `c_api_c` exports them.
#![tactic(auto)]

ghost use Rattle.std.specs.Prelude.{◌≡◌, length};
ghost use Rattle.string.specs.Decode.{decoded_of};
ghost use Rattle.literal.specs.Readings.{read_at};
ghost use Rattle.literal.specs.Values.{value_at};
ghost use Rattle.literal.specs.Decodes.{decode_at};
ghost use Rattle.literal.specs.Decodes as decodes;
ghost use Rattle.literal.specs.Suffixes.{integer_from_suffix, float_from_suffix};
ghost use Rattle.settle.specs.Settled.{settled_of, settle_at, settle_buffer};
ghost use Rattle.digits.specs.Counts.{digit_counts};
ghost use Rattle.keyed.specs.Keyed.{keyed_of, keyed_counts, keyed_at};
ghost use Rattle.numbers.specs.Numbers.{reading_numbers};
ghost use Rattle.c_api.specs.ReturnValue.{return_value, value_after};

use err::{Literal, ParseError};
use keyed::KeyedError;
use settle::Settled;

// What `keybasket_settle` returns: the form's length, or 100,000 plus the refusal number.
fn settle_result(answer: Settled) -> usize
    ensures { result ≡ return_value (λ form. form.1) (settled_of answer) }
{
    match answer {
        Ok((_, n)) => n,
        Err(error) => numbers::refusal(error.kind),
    }
}

// The settled form of a text, written to the front of out: its length, or 100,000 plus the refusal number.
pub fn keybasket_settle(text: &[u8], out: &mut [u8]) -> usize
    ensures answer { result ≡ return_value (λ form. form.1) (settle_at text.now (length out.old)) }
    ensures out_after { out.new ≡ settle_buffer text.now out.old }
    ensures text_unchanged { text.exit.now ≡ text.entry.now }
{
    settle_result(settle::settle(text, out))
}

// What `keybasket_decode` returns: how many bytes were written, or 100,000 plus the refusal number.
fn decode_result(answer: Result<usize, ParseError>) -> usize
    ensures { result ≡ return_value (λ n. n) (decoded_of answer) }
{
    match answer {
        Ok(n) => n,
        Err(error) => numbers::refusal(error.kind),
    }
}

// The decoded bytes of a text by entry code 5, 7 or 8, written to the front of out: their number, or 100,000 plus the refusal number.
pub fn keybasket_decode(entry: u64, text: &[u8], out: &mut [u8]) -> usize
    ensures answer { result ≡ return_value (λ n. n) (decode_at entry text.now (length out.old)) }
    ensures out_after { out.new ≡ decodes.decode_buffer entry text.now out.old }
    ensures text_unchanged { text.exit.now ≡ text.entry.now }
{
    decode_result(literal::decode(entry, text, out))
}

// The value of an integer literal at a type code, written to value: 0, or 100,000 plus the refusal number, and then value keeps what it held.
pub fn keybasket_value(ty: u64, text: &[u8], value: &mut u64) -> usize
    ensures answer { result ≡ return_value (λ v. 0) (value_at ty text.now) }
    ensures value_left { value.new ≡ value_after (value_at ty text.now) value.old }
    ensures text_unchanged { text.exit.now ≡ text.entry.now }
{
    match literal::value(ty, text) {
        Ok(n) => {
            *value = n;
            0
        }
        Err(error) => numbers::refusal(error.kind),
    }
}

// The reading of a text by entry code, as eight numbers: kind, start of suffix, values and counts of digits; or 0, the refusal number and the span.
pub fn keybasket_read(entry: u64, text: &[u8], answer: &mut [u64; 8])
    ensures answer_after { answer.new ≡ reading_numbers (read_at entry text.now) (digit_counts text.now (read_at entry text.now)) }
    ensures text_unchanged { text.exit.now ≡ text.entry.now }
{
    *answer = numbers::reading_numbers(literal::read(entry, text));
}

// What `keybasket_read_keyed` writes.
fn keyed_numbers(found: Result<Literal, KeyedError>) -> [u64; 8]
    ensures { result ≡ reading_numbers (keyed_of found) (keyed_counts found) }
{
    match found {
        Ok(lit) => numbers::reading_numbers(Ok(lit)),
        Err(KeyedError::Parse(error)) => numbers::reading_numbers(Err(error)),
        Err(KeyedError::Added(kind)) => numbers::added_numbers(kind),
    }
}

// The reading of a text by the keyed entry, as eight numbers.
pub fn keybasket_read_keyed(text: &[u8], answer: &mut [u64; 8])
    ensures answer_after { answer.new ≡ reading_numbers (keyed_at text.now) (digit_counts text.now (keyed_at text.now)) }
    ensures text_unchanged { text.exit.now ≡ text.entry.now }
{
    *answer = keyed_numbers(keyed::read_keyed(text));
}

// The type code of the integer type that a name stands for, 1 to 12, or 0.
pub fn keybasket_integer_from_suffix(name: &[u8]) -> u64
    ensures answer { result ≡ integer_from_suffix name.now }
    ensures name_unchanged { name.exit.now ≡ name.entry.now }
{
    u64::from(literal::integer_from_suffix(name))
}

// The type code of the float type that a name stands for, 13 or 14, or 0.
pub fn keybasket_float_from_suffix(name: &[u8]) -> u64
    ensures answer { result ≡ float_from_suffix name.now }
    ensures name_unchanged { name.exit.now ≡ name.entry.now }
{
    u64::from(literal::float_from_suffix(name))
}
