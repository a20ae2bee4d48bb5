// The settled forms of string, byte string and C string literals, without their suffixes.
#![tactic(auto)]

ghost use Rattle.std.specs.Prelude.{◌≡◌, [], ◌≤◌, length, Ok};
ghost use Rattle.buffer.specs.Buffer.{Wrote};
ghost use Rattle.utf8.specs.Utf8.{Utf8};
ghost use Rattle.form.specs.Form.{bare_form};
ghost use Rattle.form_byte.specs.Styled.{styled_forms};
ghost use Rattle.string.specs.String.{parsed_of, string_read, string_value};
ghost use Rattle.form_string.specs.Strings.{worth_in, opening_of, verbatim_in};

use err::StringLit;
use escape::Allowed;
use form_byte::Style;
use string::Inner;

// How the kind's value is written.
fn style_of(k: Allowed) -> Style
    ensures { (result.quote ≡ 34) × (result.verbatim ≡ verbatim_in k) }
{
    Style {
        quote: b'"',
        verbatim: matches!(k, Allowed::Text),
    }
}

// The kind's letter and the opening quote.
fn opening(k: Allowed) -> &'static [u8]
    ensures { result.now ≡ opening_of k }
{
    match k {
        Allowed::Text => b"\"",
        Allowed::Bytes => b"b\"",
        Allowed::C => b"c\"",
    }
}

// How long the value of a literal that was read from the text is in the form.
fn content_len(text: &[u8], lit: StringLit, k: Allowed) -> usize
    requires { (length text.now ≤ 65536) × (parsed_of k (Ok lit) ≡ string_read k text.now) }
    ensures { (result ≡ length (styled_forms (verbatim_in k) 34 (string_value k text.now))) × (result ≤ 262144) }
{
    match string::inner_range(k, lit) {
        Inner::AsItIs(start, end) => form_value::forms_len(&text[start..end], style_of(k)),
        Inner::Escaped(start) => form_value::body_len(&text[start..], k, style_of(k)),
    }
}

// Writes the value of a literal that was read from the text, as it is in the form.
fn put_content(out: &mut [u8], text: &[u8], lit: StringLit, k: Allowed) -> usize
    requires { ((length text.now ≤ 65536) × (parsed_of k (Ok lit) ≡ string_read k text.now)) × (length (styled_forms (verbatim_in k) 34 (string_value k text.now)) ≤ length out.old) }
    ensures { Wrote (styled_forms (verbatim_in k) 34 (string_value k text.now)) result out.old out.new }
{
    match string::inner_range(k, lit) {
        Inner::AsItIs(start, end) => form_value::put_forms(out, &text[start..end], style_of(k)),
        Inner::Escaped(start) => form_value::put_body(out, &text[start..], k, style_of(k)),
    }
}

// How long the form of a literal that was read from the text is, without its suffix.
pub fn form_len(text: &[u8], lit: StringLit, k: Allowed) -> usize
    requires { ((length text.now ≤ 65536) × Utf8 text.now) × (parsed_of k (Ok lit) ≡ string_read k text.now) }
    ensures { (result ≡ length (bare_form (worth_in k (string_value k text.now)) [])) × (result ≤ 262147) }
{
    opening(k).len() + content_len(text, lit, k) + 1
}

// The form without its suffix: opening, value and closing quote, one after another.
pub fn put_form(out: &mut [u8], text: &[u8], lit: StringLit, k: Allowed) -> usize
    requires { (((length text.now ≤ 65536) × Utf8 text.now) × (parsed_of k (Ok lit) ≡ string_read k text.now)) × (length (bare_form (worth_in k (string_value k text.now)) []) ≤ length out.old) }
    ensures { Wrote (bare_form (worth_in k (string_value k text.now)) []) result out.old out.new }
{
    let start = buffer::put_bytes(out, opening(k));
    let at = start + put_content(&mut out[start..], text, lit, k);
    at + buffer::put_bytes(&mut out[at..], b"\"")
}
