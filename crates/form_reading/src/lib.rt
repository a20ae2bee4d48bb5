// The settled form of a reading without its suffix: measured, and written to the front of what is lent.
#![tactic(auto)]

ghost use Rattle.std.specs.Prelude.{◌≡◌, true, false, [], ◌≤◌, length, Ok};
ghost use Rattle.err.specs.Reading.{base_of, outcome_of};
ghost use Rattle.err.specs.declared.Literal.TheVariants as literal;
ghost use Rattle.buffer.specs.Buffer.{Wrote};
ghost use Rattle.utf8.specs.Utf8.{Scalar};
ghost use Rattle.grammar.specs.Meaning as worth;
ghost use Rattle.form.specs.Form.{bare_form};
ghost use Rattle.integer_value.specs.Value.{number_within, number};
ghost use Rattle.scan.specs.Part.{part};
ghost use Rattle.literal.specs.Readings.{read_at};
ghost use Rattle.form_reading.specs.Bare.{bare_of, bare_by, bare_form_by, Roomy};

use err::{ByteLit, CharLit, FloatLit, IntegerLit, Literal, ParseError, ParseErrorKind, Reading};
use escape::Allowed;
use form_byte::Style;
use types::IntegerType;

// How a char's value is written.
fn char_style() -> Style
    ensures { (result.quote ≡ 39) × (result.verbatim ≡ true) }
{
    Style {
        quote: b'\'',
        verbatim: true,
    }
}

// How a byte's value is written.
fn byte_style() -> Style
    ensures { (result.quote ≡ 39) × (result.verbatim ≡ false) }
{
    Style {
        quote: b'\'',
        verbatim: false,
    }
}

// An integer's number, where it is at most 2^64 − 1.
fn number_of(text: &[u8], lit: IntegerLit) -> Option<u64>
    requires { outcome_of (Ok (literal.Integer lit)) ≡ read_at 0 text.now }
    ensures { result ≡ number_within 18446744073709551615 (number (base_of lit.base) (part lit.start_main_part lit.end_main_part text.now)) }
{
    let start = lit.start_main_part;
    let end = lit.end_main_part;
    let base = lit.base;
    integer_value::number_within(&text[start..end], base, IntegerType::U64_MAX)
}

// How long an integer's form is without its suffix, or 45.
fn integer_len(text: &[u8], lit: IntegerLit) -> Result<usize, ParseError>
    requires { outcome_of (Ok (literal.Integer lit)) ≡ read_at 0 text.now }
    ensures { bare_of result ≡ bare_by text.now (outcome_of (Ok (literal.Integer lit))) }
{
    let n = number_of(text, lit).ok_or(err::perr_nowhere(ParseErrorKind::NoValue))?;
    let end = lit.end_main_part;
    Ok(form_integer::form_len(n, &text[end..]))
}

// The number is worked out again. It is not above the largest, which has no form.
fn put_integer(out: &mut [u8], text: &[u8], lit: IntegerLit) -> usize
    requires { (outcome_of (Ok (literal.Integer lit)) ≡ read_at 0 text.now) × Roomy text.now (outcome_of (Ok (literal.Integer lit))) (length out.old) }
    ensures { Wrote (bare_form_by text.now (outcome_of (Ok (literal.Integer lit)))) result out.old out.new }
{
    let n = number_of(text, lit).unwrap();
    let end = lit.end_main_part;
    form_integer::put_form(out, n, &text[end..])
}

// How long a float's form is without its suffix, or 46.
fn float_len(text: &[u8], lit: FloatLit) -> Result<usize, ParseError>
    requires { outcome_of (Ok (literal.Float lit)) ≡ read_at 0 text.now }
    ensures { bare_of result ≡ bare_by text.now (outcome_of (Ok (literal.Float lit))) }
{
    form_float::float_len(text, lit).ok_or(err::perr_nowhere(ParseErrorKind::PowerTooFar))
}

// The form of a char literal without its suffix.
fn put_char_literal(out: &mut [u8], lit: CharLit) -> usize
    requires { Scalar lit.value × (length (bare_form (worth.char lit.value) []) ≤ length out.old) }
    ensures { Wrote (bare_form (worth.char lit.value) []) result out.old out.new }
{
    let start = buffer::put_bytes(out, b"'");
    let at = start + form_value::put_char_form(&mut out[start..], lit.value, char_style());
    at + buffer::put_bytes(&mut out[at..], b"'")
}

// The form of a byte literal without its suffix.
fn put_byte_literal(out: &mut [u8], lit: ByteLit) -> usize
    requires { length (bare_form (worth.byte lit.value) []) ≤ length out.old }
    ensures { Wrote (bare_form (worth.byte lit.value) []) result out.old out.new }
{
    let start = buffer::put_bytes(out, b"b'");
    let at = start + form_byte::put_form(&mut out[start..], lit.value, byte_style());
    at + buffer::put_bytes(&mut out[at..], b"'")
}

// How long the form of a literal that was read from the text is without its suffix, or 45 or 46.
fn literal_len(text: &[u8], lit: Literal) -> Result<usize, ParseError>
    requires { outcome_of (Ok lit) ≡ read_at 0 text.now }
    ensures { bare_of result ≡ bare_by text.now (outcome_of (Ok lit)) }
{
    match lit {
        Literal::Bool(_) => Ok(text.len()),
        Literal::Integer(lit) => integer_len(text, lit),
        Literal::Float(lit) => float_len(text, lit),
        Literal::Char(lit) => Ok(2 + form_value::char_form_len(lit.value, char_style())),
        Literal::String(lit) => Ok(form_string::form_len(text, lit, Allowed::Text)),
        Literal::Byte(lit) => Ok(3 + form_byte::form_len(lit.value, byte_style())),
        Literal::ByteString(lit) => Ok(form_string::form_len(text, lit, Allowed::Bytes)),
        Literal::CString(lit) => Ok(form_string::form_len(text, lit, Allowed::C)),
    }
}

// How long a reading's form is without its suffix, or 45 or 46. A refused reading's refusal stays as it is.
pub fn bare_len(text: &[u8], found: Reading) -> Result<usize, ParseError>
    requires { outcome_of found ≡ read_at 0 text.now }
    ensures { bare_of result ≡ bare_by text.now (outcome_of found) }
{
    literal_len(text, found?)
}

// The form of a literal that was read from the text, without its suffix.
pub fn put_bare(out: &mut [u8], text: &[u8], found: Literal) -> usize
    requires { (outcome_of (Ok found) ≡ read_at 0 text.now) × Roomy text.now (outcome_of (Ok found)) (length out.old) }
    ensures { Wrote (bare_form_by text.now (outcome_of (Ok found))) result out.old out.new }
{
    match found {
        Literal::Bool(_) => buffer::put_bytes(out, text),
        Literal::Integer(lit) => put_integer(out, text, lit),
        Literal::Float(lit) => form_float::put_float(out, text, lit),
        Literal::Char(lit) => put_char_literal(out, lit),
        Literal::String(lit) => form_string::put_form(out, text, lit, Allowed::Text),
        Literal::Byte(lit) => put_byte_literal(out, lit),
        Literal::ByteString(lit) => form_string::put_form(out, text, lit, Allowed::Bytes),
        Literal::CString(lit) => form_string::put_form(out, text, lit, Allowed::C),
    }
}
