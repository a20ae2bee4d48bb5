// The value of a quoted literal as its settled form writes it, many bytes at once: a slice of it, a character, a whole body.
#![tactic(auto)]

ghost use Rattle.std.specs.Prelude.{◌≡◌, ◌*◌, ◌≤◌, length};
ghost use Rattle.buffer.specs.Buffer.{Wrote};
ghost use Rattle.utf8.specs.Utf8.{Scalar, encode};
ghost use Rattle.escape.specs.Escape.{bytes_of, Valid};
ghost use Rattle.body.specs.Body.{body};
ghost use Rattle.form_value.specs.Sets.{in_itself};
ghost use Rattle.form_byte.specs.Styled.{styled_forms, extra_of, extras_of};

use escape::{Allowed, Unescaped};
use form_byte::Style;
use scan::ByteSet;

// The bytes whose form is the byte.
#[derive(Clone, Copy)]
pub struct Itself(pub Style);

impl ByteSet for Itself {
    ghost holds = { in_itself };

    #[tactic(auto, unfolding(form_byte::specs::Styled::itself))]
    fn contains(self, b: u8) -> bool {
        if b < 32 {
            return false;
        }
        if b == b'\\' {
            return false;
        }
        if b == self.0.quote {
            return false;
        }
        if b < 127 {
            return true;
        }
        if b == 127 {
            return false;
        }
        self.0.verbatim
    }
}

// How many bytes more than one a byte of a value has in the form.
fn extra(b: u8, style: Style) -> u8
    ensures { (result ≡ extra_of style.verbatim style.quote b) × (result ≤ 3) }
{
    (form_byte::form_len(b, style) - 1) as u8
}

// How many more all the bytes of a slice have. Branch-free, with a sum of one byte, so that LLVM vectorises it.
fn extras(s: &[u8], style: Style) -> u8
    requires { length s.now ≤ 64 }
    ensures { result ≡ extras_of style.verbatim style.quote s.now }
{
    let mut n: u8 = 0;
    for b in s {
        n += extra(*b, style);
    }
    n
}

// How long the bytes of a slice are in the form, by blocks of 64 bytes.
pub fn forms_len(s: &[u8], style: Style) -> usize
    requires { length s.now ≤ 65536 }
    ensures { (result ≡ length (styled_forms style.verbatim style.quote s.now)) × (result ≤ 4 * length s.now) }
{
    let mut n: usize = s.len();
    for block in s.chunks(64) {
        n += usize::from(extras(block, style));
    }
    n
}

// The bytes of a slice, one after another: a run of those that are their own forms at once.
pub fn put_forms(out: &mut [u8], s: &[u8], style: Style) -> usize
    requires { length (styled_forms style.verbatim style.quote s.now) ≤ length out.old }
    ensures { Wrote (styled_forms style.verbatim style.quote s.now) result out.old out.new }
{
    let mut at: usize = 0;
    let mut i = 0;
    // no `for`: a turn goes on by a length that it finds
    while i < s.len() {
        let e = blocks::run_end(s, i, Itself(style));
        at += buffer::put_bytes(&mut out[at..], &s[i..e]);
        if e == s.len() {
            return at;
        }
        at += form_byte::put_form(&mut out[at..], s[e], style);
        i = e + 1;
    }
    at
}

// How long a character is in the form: an ASCII one as a byte, another by the bytes of its encoding.
pub fn char_form_len(c: u32, style: Style) -> usize
    ensures { (result ≡ length (styled_forms style.verbatim style.quote (encode c))) × (result ≤ 16) }
{
    if c < 128 {
        return form_byte::form_len(c as u8, style);
    }
    let n = utf8::encoded_len(c);
    if style.verbatim {
        return n;
    }
    4 * n
}

// The bytes of a character's encoding, each as the style writes it.
fn put_encoded(out: &mut [u8], c: u32, style: Style) -> usize
    requires { Scalar c × (length (styled_forms style.verbatim style.quote (encode c)) ≤ length out.old) }
    ensures { Wrote (styled_forms style.verbatim style.quote (encode c)) result out.old out.new }
{
    let mut bytes = [0; 4];
    let n = utf8::encode_char(&mut bytes, c);
    put_forms(out, &bytes[..n], style)
}

// Writes a character of a value: an ASCII one as a byte, another by the bytes of its encoding.
pub fn put_char_form(out: &mut [u8], c: u32, style: Style) -> usize
    requires { Scalar c × (length (styled_forms style.verbatim style.quote (encode c)) ≤ length out.old) }
    ensures { Wrote (styled_forms style.verbatim style.quote (encode c)) result out.old out.new }
{
    if c < 128 {
        return form_byte::put_form(out, c as u8, style);
    }
    if style.verbatim {
        return utf8::encode_char(out, c);
    }
    put_encoded(out, c, style)
}

// How long the form of what an escape or a byte of a body stands for is.
fn piece_len(u: Unescaped, style: Style) -> usize
    ensures { (result ≡ length (styled_forms style.verbatim style.quote (bytes_of u))) × (result ≤ 16) }
{
    match u {
        Unescaped::Nothing => 0,
        Unescaped::Byte(b) => form_byte::form_len(b, style),
        Unescaped::Unicode(c) => char_form_len(c, style),
    }
}

// Writes what an escape or a byte of a body stands for.
fn put_piece(out: &mut [u8], u: Unescaped, style: Style) -> usize
    requires { Valid u × (length (styled_forms style.verbatim style.quote (bytes_of u)) ≤ length out.old) }
    ensures { Wrote (styled_forms style.verbatim style.quote (bytes_of u)) result out.old out.new }
{
    match u {
        Unescaped::Nothing => 0,
        Unescaped::Byte(b) => form_byte::put_form(out, b, style),
        Unescaped::Unicode(c) => put_char_form(out, c, style),
    }
}

// How long the value of a quoted body is in the form: s is what stands after the opening quote, to the end of the text.
pub fn body_len(s: &[u8], k: Allowed, style: Style) -> usize
    requires { length s.now ≤ 65536 }
    ensures { (result ≡ length (styled_forms style.verbatim style.quote (body k s.now).value)) × (result ≤ 4 * length s.now) }
{
    let end = s.len() - utf8::last_len(s);
    let mut i = 0;
    let mut n: usize = 0;
    // no `for`: a turn goes on by a length that it finds
    loop {
        if scan::byte_at(s, i) == b'\\' {
            let c = body::packed_at(s, i, end, k);
            if c == 0 {
                return n;
            }
            n += piece_len(escape_packed::packed_value(c), style);
            i += escape_packed::packed_len(c);
            continue;
        }
        let e = body_plain::plain_end(s, i, k);
        if e == i {
            return n;
        }
        n += forms_len(&s[i..e], style);
        i = e;
    }
}

// The value of a quoted body, piece by piece.
pub fn put_body(out: &mut [u8], s: &[u8], k: Allowed, style: Style) -> usize
    requires { (length s.now ≤ 65536) × (length (styled_forms style.verbatim style.quote (body k s.now).value) ≤ length out.old) }
    ensures { Wrote (styled_forms style.verbatim style.quote (body k s.now).value) result out.old out.new }
{
    let end = s.len() - utf8::last_len(s);
    let mut i = 0;
    let mut at: usize = 0;
    // no `for`: a turn goes on by a length that it finds
    loop {
        if scan::byte_at(s, i) == b'\\' {
            let c = body::packed_at(s, i, end, k);
            if c == 0 {
                return at;
            }
            at += put_piece(&mut out[at..], escape_packed::packed_value(c), style);
            i += escape_packed::packed_len(c);
            continue;
        }
        let e = body_plain::plain_end(s, i, k);
        if e == i {
            return at;
        }
        at += put_forms(&mut out[at..], &s[i..e], style);
        i = e;
    }
}
