// A byte of a quoted literal's value as the settled form writes it: measured, and written to the front of what is lent.
#![tactic(auto)]

ghost use Rattle.std.specs.Prelude.{◌≡◌, ◌≤◌, length};
ghost use Rattle.buffer.specs.Buffer.{Wrote};
ghost use Rattle.form.specs.Escapes.{x_form};
ghost use Rattle.form_byte.specs.Styled.{styled_form, letter_of, spelled};

// How a kind writes its value: its quote, and whether a byte above 127 stands as itself.
#[derive(Clone, Copy)]
pub struct Style {
    pub quote: u8,
    pub verbatim: bool,
}

// How a byte of a value is written: as itself, as a backslash and a letter, or as `\x` and its hex digits.
enum Spelling {
    Itself,
    Letter(u8),
    Hex,
}

// What stands after the backslash of an escape of two bytes.
#[tactic(auto, unfolding(crate::specs::Styled::letter_of, form::specs::Escapes::escape_letter))]
fn escape_letter(b: u8, quote: u8) -> Option<u8>
    ensures { result ≡ letter_of quote b }
{
    match b {
        b'\\' => Some(b'\\'),
        b'\n' => Some(b'n'),
        b'\r' => Some(b'r'),
        b'\t' => Some(b't'),
        0 => Some(b'0'),
        _ if b == quote => Some(quote),
        _ => None,
    }
}

// How a byte is written. One above 127 has no letter, whatever the quote.
fn spelling_of(b: u8, style: Style) -> Spelling
    ensures { spelled result b ≡ styled_form style.verbatim style.quote b }
{
    if 127 < b {
        return if style.verbatim {
            Spelling::Itself
        } else {
            Spelling::Hex
        };
    }
    match escape_letter(b, style.quote) {
        Some(letter) => Spelling::Letter(letter),
        None => match b {
            b' '..=b'~' => Spelling::Itself,
            _ => Spelling::Hex,
        },
    }
}

// How long one byte of a value is in the form.
#[tactic(auto, using(crate::proofs::Styles::x_length))]
pub fn form_len(b: u8, style: Style) -> usize
    ensures { (result ≡ length (styled_form style.verbatim style.quote b)) × (result ≤ 4) }
{
    match spelling_of(b, style) {
        Spelling::Itself => 1,
        Spelling::Letter(_) => 2,
        Spelling::Hex => 4,
    }
}

// `\x` and two hex digits.
fn put_x(out: &mut [u8], b: u8) -> usize
    requires { 4 ≤ length out.old }
    ensures { Wrote (x_form b) result out.old out.new }
{
    let at = buffer::put_bytes(out, b"\\x");
    at + buffer::put_hex(&mut out[at..], b)
}

// One byte of a value.
#[tactic(auto, using(crate::proofs::Styles::x_length))]
pub fn put_form(out: &mut [u8], b: u8, style: Style) -> usize
    requires { length (styled_form style.verbatim style.quote b) ≤ length out.old }
    ensures { Wrote (styled_form style.verbatim style.quote b) result out.old out.new }
{
    match spelling_of(b, style) {
        Spelling::Itself => buffer::put_bytes(out, &[b]),
        Spelling::Letter(letter) => buffer::put_bytes(out, &[b'\\', letter]),
        Spelling::Hex => put_x(out, b),
    }
}
