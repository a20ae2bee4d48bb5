// One escape as one number, which tells how many bytes it has and what it stands for; 0 where it is refused. A loop over a body
// reads a number several times faster than `escape::unescape`'s enum in an enum.
#![tactic(auto)]

ghost use Rattle.std.specs.Prelude.{◌≡◌, ◌≤◌, ◌<◌, length};
ghost use Rattle.escape.specs.Escape.{x_escape, u_scalar, u_escape, escape_of};
ghost use Rattle.escape_packed.specs.Packed.{packed_piece, packed_escape, packed_len, packed_value};

use escape::{Allowed, Unescaped};

// The packed number of a piece is its length times this, and a smaller number for what it stands for.
const LEN_UNIT: u64 = 4294967296;

// A dropped line break of n bytes, which stands for nothing, as one number.
#[tactic(auto, unfolding(crate::specs::Packed::packed_piece))]
pub fn packed_nothing(n: usize) -> u64
    requires { n < 4294967296 }
    ensures { result ≡ packed_piece n Unescaped.Nothing }
{
    n as u64 * LEN_UNIT
}

// A byte that n bytes stand for, as one number.
#[tactic(auto, unfolding(crate::specs::Packed::packed_piece))]
fn packed_byte(n: u64, b: u8) -> u64
    requires { n ≤ 4 }
    ensures { result ≡ packed_piece n (Unescaped.Byte b) }
{
    n * LEN_UNIT + 1 + u64::from(b)
}

// An escape by `x` as one number, or 0 where it is refused.
fn packed_x(s: &[u8], k: Allowed) -> u64
    ensures { result ≡ packed_escape (x_escape k s.now) }
{
    if s.len() < 4 || !utf8::is_boundary(s, 4) {
        return 0;
    }
    let Some(a) = parse::hex_digit_value(s[2]) else {
        return 0;
    };
    let Some(b) = parse::hex_digit_value(s[3]) else {
        return 0;
    };
    let v = b + 16 * a;
    if escape::bars(k.byte_escapes(), 127 < v) {
        return 0;
    }
    if escape::bars(k.allow_nul(), v == 0) {
        return 0;
    }
    packed_byte(4, v)
}

// An escape of n bytes whose digits are worth v, as one number.
#[tactic(auto, unfolding(escape::specs::Escape::u_scalar, crate::specs::Packed::packed_piece))]
fn packed_scalar(v: u32, n: usize, k: Allowed) -> u64
    requires { n < 4294967296 }
    ensures { result ≡ packed_escape (u_scalar k n v) }
{
    if escape::bars(k.allow_nul(), v == 0) {
        return 0;
    }
    if !escape::is_scalar(v) {
        return 0;
    }
    n as u64 * LEN_UNIT + 257 + u64::from(v)
}

// An escape by `u` as one number, or 0 where it is refused. Not inlined: the registers that its loop wants would be saved for every other escape too. The
// closing brace is tested for first: a digit takes more tests.
#[inline(never)]
fn packed_u(s: &[u8], k: Allowed) -> u64
    requires { length s.now < 4294967296 }
    ensures { result ≡ packed_escape (u_escape k s.now) }
{
    if !k.unicode() {
        return 0;
    }
    if scan::byte_at(s, 2) != b'{' {
        return 0;
    }
    let mut v: u32 = 0;
    let mut n: u32 = 0;
    for i in 3..s.len() {
        let b = s[i];
        if b == b'}' {
            if i == 3 {
                return 0;
            }
            return packed_scalar(v, i + 1, k);
        }
        let d = parse::class_of(b);
        if d < 16 {
            if n == 6 {
                return 0;
            }
            v = 16 * v + u32::from(d);
            n += 1;
            continue;
        }
        if i == 3 || b != b'_' {
            return 0;
        }
    }
    0
}

// The escape at the front as one number, or 0 where it is refused.
#[tactic(auto, unfolding(escape::specs::Escape::escape_of, escape::specs::Escape::escape_by))]
pub fn packed(s: &[u8], k: Allowed) -> u64
    requires { length s.now < 4294967296 }
    ensures { result ≡ packed_escape (escape_of k s.now) }
{
    if s.len() < 2 {
        return 0;
    }
    let b = s[1];
    if let Some(value) = escape::simple_escape(b) {
        return packed_byte(2, value);
    }
    match b {
        b'x' => packed_x(s, k),
        b'u' => packed_u(s, k),
        b'0' if k.allow_nul() => packed_byte(2, 0),
        _ => 0,
    }
}

// How many bytes a packed piece has.
#[tactic(auto, unfolding(crate::specs::Packed::packed_len))]
pub fn packed_len(c: u64) -> usize
    ensures { result ≡ packed_len c }
{
    (c / LEN_UNIT) as usize
}

// What a packed piece stands for.
#[tactic(auto, unfolding(crate::specs::Packed::packed_value, crate::specs::Packed::unescaped_by))]
pub fn packed_value(c: u64) -> Unescaped
    ensures { result ≡ packed_value c }
{
    let v = (c % LEN_UNIT) as u32;
    match v {
        0 => Unescaped::Nothing,
        1..257 => Unescaped::Byte((v - 1) as u8),
        _ => Unescaped::Unicode(v - 257),
    }
}
