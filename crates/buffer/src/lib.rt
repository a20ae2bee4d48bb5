// Pieces written at the front of a lent buffer. Each writer returns the piece's length and leaves the bytes after it as they were.
#![tactic(auto)]

ghost use Rattle.std.specs.Prelude.{◌≡◌, ◌∷◌, [], ◌≤◌, ◌<◌, length};
ghost use Rattle.buffer.specs.Buffer.{Wrote};
ghost use Rattle.buffer.specs.Digits.{decimal, hex_digit, hex_digits};

// Writes a slice, byte by byte: `copy_from_slice` would be a call of memcpy or memmove, which the archive for C does without.
pub fn put_bytes(out: &mut [u8], piece: &[u8]) -> usize
    requires { length piece.now ≤ length out.old }
    ensures { Wrote piece.now result out.old out.new }
{
    for i in 0..piece.len() {
        out[i] = piece[i];
    }
    piece.len()
}

// The lower-case hex digit of a number below 16.
#[tactic(auto, unfolding(crate::specs::Digits::hex_digit))]
fn hex_digit(d: u8) -> u8
    requires { d < 16 }
    ensures { result ≡ hex_digit d }
{
    if d < 10 { 48 + d } else { 87 + d }
}

// The two hex digits of a byte, lower case.
#[tactic(auto, unfolding(crate::specs::Digits::hex_digits))]
pub fn put_hex(out: &mut [u8], b: u8) -> usize
    requires { 2 ≤ length out.old }
    ensures { Wrote (hex_digits b) result out.old out.new }
{
    put_bytes(out, &[hex_digit(b / 16), hex_digit(b % 16)])
}

// How many digits a number has in decimal.
pub fn decimal_len(n: u64) -> usize
    ensures { result ≡ length (decimal n) }
{
    n.checked_ilog10().map_or(1, |d| d as usize + 1)
}

// The decimal digits of a number, written from the last to the first.
pub fn put_decimal(out: &mut [u8], n: u64) -> usize
    requires { length (decimal n) ≤ length out.old }
    ensures { Wrote (decimal n) result out.old out.new }
{
    let k = decimal_len(n);
    let mut rest = n;
    for i in (0..k).rev() {
        out[i] = 48 + (rest % 10) as u8;
        rest /= 10;
    }
    k
}
