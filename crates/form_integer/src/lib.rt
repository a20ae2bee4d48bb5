// An integer's settled form without its suffix.
#![tactic(auto)]

ghost use Rattle.std.specs.Prelude.{◌≡◌, ◌≤◌, length};
ghost use Rattle.buffer.specs.Buffer.{Wrote};
ghost use Rattle.form.specs.Form.{integer_form};
ghost use Rattle.form_integer.specs.Integers.{doubled};

// Whether a zero is written twice, so that it and the suffix are not read as the prefix of a base.
#[tactic(auto, unfolding(crate::specs::Integers::doubled))]
fn is_doubled(n: u64, suffix: &[u8]) -> bool
    ensures { result ≡ doubled n suffix.now }
{
    n == 0 && matches!(suffix, [b'b' | b'o' | b'x', ..])
}

// How long an integer's form is before this suffix.
pub fn form_len(n: u64, suffix: &[u8]) -> usize
    ensures { (result ≡ length (integer_form n suffix.now)) × (result ≤ 20) }
{
    if is_doubled(n, suffix) {
        return 2;
    }
    buffer::decimal_len(n)
}

// Writes an integer's form before this suffix.
pub fn put_form(out: &mut [u8], n: u64, suffix: &[u8]) -> usize
    requires { length (integer_form n suffix.now) ≤ length out.old }
    ensures { Wrote (integer_form n suffix.now) result out.old out.new }
{
    if is_doubled(n, suffix) {
        return buffer::put_bytes(out, b"00");
    }
    buffer::put_decimal(out, n)
}
