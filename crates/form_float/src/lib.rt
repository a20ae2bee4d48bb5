// A float's settled form without its suffix: the digits of the reduced number, `e` and the power of ten, measured and written from the text.
#![tactic(auto)]

ghost use Rattle.std.specs.Prelude.{◌≡◌, true, cond, ◌≤◌, length};
ghost use Rattle.buffer.specs.Buffer.{Wrote};
ghost use Rattle.form.specs.Reduced.{reduce};
ghost use Rattle.form.specs.Form.{reduced_form};
ghost use Rattle.form_decimal.specs.Digits.{digits_of};
ghost use Rattle.form_decimal.specs.Scaled.{decimal_of, FloatOf, power_in_range};
ghost use Rattle.form_float.specs.Floats.{power_form, scaled_form, known, too_far, length_of};

use err::FloatLit;
use form_decimal::{Scaled, Scaling};

// The digits, without what stands among them, byte by byte.
fn put_each(out: &mut [u8], s: &[u8]) -> usize
    requires { length (digits_of s.now) ≤ length out.old }
    ensures { Wrote (digits_of s.now) result out.old out.new }
{
    let mut at: usize = 0;
    for b in s {
        if parse::is_decimal(*b) {
            out[at] = *b;
            at += 1;
        }
    }
    at
}

// The digits of at most 64 bytes, without `_`: copied at once where they are digits alone.
fn put_block(out: &mut [u8], s: &[u8]) -> usize
    requires { (length s.now ≤ 64) × (length (digits_of s.now) ≤ length out.old) }
    ensures { Wrote (digits_of s.now) result out.old out.new }
{
    if form_decimal::count(s) as usize == s.len() {
        return buffer::put_bytes(out, s);
    }
    put_each(out, s)
}

// The digits of any number of bytes, without `_`, by blocks of 64.
fn put_digits(out: &mut [u8], s: &[u8]) -> usize
    requires { length (digits_of s.now) ≤ length out.old }
    ensures { Wrote (digits_of s.now) result out.old out.new }
{
    let mut at: usize = 0;
    for block in s.chunks(64) {
        at += put_block(&mut out[at..], block);
    }
    at
}

// How long the form of a scaled number is.
fn scaled_len(mantissa: &[u8], r: Scaled) -> usize
    requires { (length mantissa.now ≤ 65536) × ((r.first ≤ r.last) × (r.last ≤ length mantissa.now)) }
    ensures { (result ≡ length (scaled_form mantissa.now r)) × (result ≤ 65558) }
{
    let first = r.first;
    let last = r.last;
    let n = form_decimal::digits_len(&mantissa[first..last]) + 1 + buffer::decimal_len(r.power);
    if r.negative {
        return n + 1;
    }
    n
}

// `e`, the sign if there is one, and the power.
fn put_power(out: &mut [u8], r: Scaled) -> usize
    requires { length (power_form r) ≤ length out.old }
    ensures { Wrote (power_form r) result out.old out.new }
{
    if r.negative {
        let at = buffer::put_bytes(out, b"e-");
        return at + buffer::put_decimal(&mut out[at..], r.power);
    }
    let at = buffer::put_bytes(out, b"e");
    at + buffer::put_decimal(&mut out[at..], r.power)
}

// Writes the significant digits, an `e`, and the reduced power of ten.
fn put_scaled(out: &mut [u8], mantissa: &[u8], r: Scaled) -> usize
    requires { ((r.first ≤ r.last) × (r.last ≤ length mantissa.now)) × (length (scaled_form mantissa.now r) ≤ length out.old) }
    ensures { Wrote (scaled_form mantissa.now r) result out.old out.new }
{
    let first = r.first;
    let last = r.last;
    let at = put_digits(out, &mantissa[first..last]);
    at + put_power(&mut out[at..], r)
}

// How long the form of a float is without its suffix, or that its power is too far.
pub fn float_len(text: &[u8], lit: FloatLit) -> Option<usize>
    requires { FloatOf text.now lit }
    ensures { length_of result ≡ cond (power_in_range (decimal_of text.now lit)) (known (length (reduced_form (reduce (decimal_of text.now lit))))) too_far }
{
    let end = lit.end_fractional_part;
    match form_decimal::scale(text, lit) {
        Scaling::Zero => Some(3),
        Scaling::TooFar => None,
        Scaling::To(r) => Some(scaled_len(&text[..end], r)),
    }
}

// The form of a float without its suffix, where its power is in range; so `TooFar` cannot arise.
pub fn put_float(out: &mut [u8], text: &[u8], lit: FloatLit) -> usize
    requires { FloatOf text.now lit × ((power_in_range (decimal_of text.now lit) ≡ true) × (length (reduced_form (reduce (decimal_of text.now lit))) ≤ length out.old)) }
    ensures { Wrote (reduced_form (reduce (decimal_of text.now lit))) result out.old out.new }
{
    let end = lit.end_fractional_part;
    match form_decimal::scale(text, lit) {
        Scaling::Zero => buffer::put_bytes(out, b"0e0"),
        Scaling::TooFar => 0,
        Scaling::To(r) => put_scaled(out, &text[..end], r),
    }
}
