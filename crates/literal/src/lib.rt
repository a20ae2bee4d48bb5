// The calls that a user makes, of any code and any bytes. A refusal is the first of 42, 43, 44, litrs's own, 45 or 48. Codes are numbers here, since C
// hands them in, and a number that is no code is refused (42).
// The last clause of each user's call's contract says that the text at exit is what it was at entry.
#![tactic(auto)]

ghost use Rattle.std.specs.Prelude.{◌≡◌, ◌≤◌, length};
ghost use Rattle.integer_value.specs.Value.{valued_of};
ghost use Rattle.err.specs.Reading.{outcome_of};
ghost use Rattle.err.specs.Counts.{counts_of};
ghost use Rattle.digits.specs.Counts.{digit_counts};
ghost use Rattle.string.specs.Decode.{decoded_of};
ghost use Rattle.literal.specs.Readings.{quote_in, allowed_in, entry_read, read_at};
ghost use Rattle.literal.specs.Decodes.{kind_coded, decode_at, decode_buffer};
ghost use Rattle.types.specs.Types.{integer_coded};
ghost use Rattle.literal.specs.Values.{largest_in, value_at};
ghost use Rattle.literal.specs.Suffixes.{integer_from_suffix, float_from_suffix};

use character_quote::Quote;
use err::{Kind, Literal, ParseError, ParseErrorKind, Reading};
use escape::Allowed;
use types::{FloatType, IntegerType};

// The code of the integer type that a name stands for, or 0.
#[tactic(auto, unfolding(crate::specs::Suffixes::integer_from_suffix))]
pub fn integer_from_suffix(name: &[u8]) -> u8
    ensures value { result ≡ integer_from_suffix name.now }
    ensures name_unchanged { name.exit.now ≡ name.entry.now }
{
    match IntegerType::from_suffix(name) {
        Some(ty) => ty.code(),
        None => 0,
    }
}

// The code of the float type that a name stands for, or 0.
#[tactic(auto, unfolding(crate::specs::Suffixes::float_from_suffix))]
pub fn float_from_suffix(name: &[u8]) -> u8
    ensures value { result ≡ float_from_suffix name.now }
    ensures name_unchanged { name.exit.now ≡ name.entry.now }
{
    match FloatType::from_suffix(name) {
        Some(ty) => ty.code(),
        None => 0,
    }
}

// What differs between a char and a byte.
fn quote_of(kind: Kind) -> Quote
    ensures { result ≡ quote_in kind }
{
    match kind {
        Kind::Byte => Quote::Byte,
        _ => Quote::Char,
    }
}

// What the escapes of a kind of string allow.
fn allowed_of(kind: Kind) -> Allowed
    ensures { result ≡ allowed_in kind }
{
    match kind {
        Kind::ByteString => Allowed::Bytes,
        Kind::CString => Allowed::C,
        _ => Allowed::Text,
    }
}

// The reading of a checked text. Each kind's parser is called at this one place, so that a whole reading is compiled into one function.
fn entry(code: u64, text: &[u8]) -> Reading
    requires { (code ≤ 8) × (length text.now ≤ 65536) }
    ensures outcome { outcome_of result ≡ entry_read code text.now }
    ensures counts { counts_of result ≡ digit_counts text.now (entry_read code text.now) }
{
    let Ok(kind) = dispatch::chosen(code, text) else {
        return Err(err::perr_nowhere(ParseErrorKind::InvalidLiteral));
    };
    match kind {
        Kind::Bool => Ok(Literal::Bool(boolean::parse(text)?)),
        Kind::Integer => Ok(Literal::Integer(integer::parse(text)?)),
        Kind::Float => Ok(Literal::Float(float::parse(text)?)),
        Kind::Char | Kind::Byte => character::parse(text, quote_of(kind)),
        Kind::String | Kind::ByteString | Kind::CString => string::parse(text, allowed_of(kind)),
    }
}

// The reading of a text by entry code, and how many digits a number's parts have.
pub fn read(code: u64, text: &[u8]) -> Reading
    ensures outcome { outcome_of result ≡ read_at code text.now }
    ensures counts { counts_of result ≡ digit_counts text.now (read_at code text.now) }
    ensures text_unchanged { text.exit.now ≡ text.entry.now }
{
    if 8 < code {
        return Err(err::perr_nowhere(ParseErrorKind::BadCode));
    }
    if let Err(kind) = text_check::check_text(text) {
        return Err(err::perr_nowhere(kind));
    }
    entry(code, text)
}

// The largest value of the type that a code stands for, if that type has values here.
fn largest_coded(code: u64) -> Option<u64>
    ensures { result ≡ largest_in (integer_coded code) }
{
    IntegerType::from_code(code)?.largest()
}

// The value of an integer literal at a type code.
pub fn value(code: u64, text: &[u8]) -> Result<u64, ParseError>
    ensures answer { valued_of result ≡ value_at code text.now }
    ensures text_unchanged { text.exit.now ≡ text.entry.now }
{
    let Some(largest) = largest_coded(code) else {
        return Err(err::perr_nowhere(ParseErrorKind::BadCode));
    };
    // a `match`, not `?`: must-fail/value_refusal_without_span.edit changes what is returned here
    let found = match read(2, text) {
        Ok(found) => found,
        Err(error) => return Err(error),
    };
    let Literal::Integer(lit) = found else {
        // entry 2 reads integers alone
        unreachable!()
    };
    integer_value::value_of(text, lit, largest)
}

// The kind of string that a code stands for, if any.
#[tactic(auto, unfolding(crate::specs::Decodes::kind_coded))]
fn string_kind(code: u64) -> Option<Allowed>
    ensures { result ≡ kind_coded code }
{
    match code {
        5 => Some(Allowed::Text),
        7 => Some(Allowed::Bytes),
        8 => Some(Allowed::C),
        _ => None,
    }
}

// The decoded bytes of a literal by entry code 5, 7 or 8, written to the front of out, and how many they are.
pub fn decode(code: u64, text: &[u8], out: &mut [u8]) -> Result<usize, ParseError>
    ensures answer { decoded_of result ≡ decode_at code text.now (length out.old) }
    ensures out_after { out.new ≡ decode_buffer code text.now out.old }
    ensures text_unchanged { text.exit.now ≡ text.entry.now }
{
    let Some(kind) = string_kind(code) else {
        return Err(err::perr_nowhere(ParseErrorKind::BadCode));
    };
    let lit = match read(code, text)? {
        Literal::String(lit) | Literal::ByteString(lit) | Literal::CString(lit) => lit,
        // these entries read strings alone
        _ => unreachable!(),
    };
    string::decode(text, kind, lit, out)
}
