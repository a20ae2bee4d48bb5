// The entries for C (include/keybasket.h), exported under the names that the header declares. Each hands what it was given to the function of its name in `c_api`.
#![tactic(auto)]

ghost use Rattle.std.specs.Prelude.{◌≡◌, length};
ghost use Rattle.literal.specs.Readings.{read_at};
ghost use Rattle.literal.specs.Values.{value_at};
ghost use Rattle.literal.specs.Decodes.{decode_at};
ghost use Rattle.literal.specs.Decodes as decodes;
ghost use Rattle.literal.specs.Suffixes.{integer_from_suffix, float_from_suffix};
ghost use Rattle.settle.specs.Settled.{settle_at, settle_buffer};
ghost use Rattle.digits.specs.Counts.{digit_counts};
ghost use Rattle.keyed.specs.Keyed.{keyed_at};
ghost use Rattle.numbers.specs.Numbers.{reading_numbers};
ghost use Rattle.c_api.specs.ReturnValue.{return_value, value_after};

// The settled form of a text, written to the front of out: its length, or 100,000 plus the refusal number.
#[unsafe(no_mangle)]
pub extern "C" fn keybasket_settle(text: &[u8], out: &mut [u8]) -> usize
    ensures answer { result ≡ return_value (λ form. form.1) (settle_at text.now (length out.old)) }
    ensures out_after { out.new ≡ settle_buffer text.now out.old }
    ensures text_unchanged { text.exit.now ≡ text.entry.now }
{
    c_api::keybasket_settle(text, out)
}

// The decoded bytes of a text by entry code 5, 7 or 8, written to the front of out: their number, or 100,000 plus the refusal number.
#[unsafe(no_mangle)]
pub extern "C" fn keybasket_decode(entry: u64, text: &[u8], out: &mut [u8]) -> usize
    ensures answer { result ≡ return_value (λ n. n) (decode_at entry text.now (length out.old)) }
    ensures out_after { out.new ≡ decodes.decode_buffer entry text.now out.old }
    ensures text_unchanged { text.exit.now ≡ text.entry.now }
{
    c_api::keybasket_decode(entry, text, out)
}

// The value of an integer literal at a type code, written to value: 0, or 100,000 plus the refusal number, and then value keeps what it held.
#[unsafe(no_mangle)]
pub extern "C" fn keybasket_value(ty: u64, text: &[u8], value: &mut u64) -> usize
    ensures answer { result ≡ return_value (λ v. 0) (value_at ty text.now) }
    ensures value_left { value.new ≡ value_after (value_at ty text.now) value.old }
    ensures text_unchanged { text.exit.now ≡ text.entry.now }
{
    c_api::keybasket_value(ty, text, value)
}

// The reading of a text by entry code, as eight numbers: kind, start of suffix, values and counts of digits; or 0, the refusal number and the span.
#[unsafe(no_mangle)]
pub extern "C" fn keybasket_read(entry: u64, text: &[u8], answer: &mut [u64; 8])
    ensures answer_after { answer.new ≡ reading_numbers (read_at entry text.now) (digit_counts text.now (read_at entry text.now)) }
    ensures text_unchanged { text.exit.now ≡ text.entry.now }
{
    c_api::keybasket_read(entry, text, answer);
}

// The reading of a text by the keyed entry, as eight numbers.
#[unsafe(no_mangle)]
pub extern "C" fn keybasket_read_keyed(text: &[u8], answer: &mut [u64; 8])
    ensures answer_after { answer.new ≡ reading_numbers (keyed_at text.now) (digit_counts text.now (keyed_at text.now)) }
    ensures text_unchanged { text.exit.now ≡ text.entry.now }
{
    c_api::keybasket_read_keyed(text, answer);
}

// The type code of the integer type that a name stands for, 1 to 12, or 0.
#[unsafe(no_mangle)]
pub extern "C" fn keybasket_integer_from_suffix(name: &[u8]) -> u64
    ensures answer { result ≡ integer_from_suffix name.now }
    ensures name_unchanged { name.exit.now ≡ name.entry.now }
{
    c_api::keybasket_integer_from_suffix(name)
}

// The type code of the float type that a name stands for, 13 or 14, or 0.
#[unsafe(no_mangle)]
pub extern "C" fn keybasket_float_from_suffix(name: &[u8]) -> u64
    ensures answer { result ≡ float_from_suffix name.now }
    ensures name_unchanged { name.exit.now ≡ name.entry.now }
{
    c_api::keybasket_float_from_suffix(name)
}
