// UTF-8, as RFC 3629 has it: a character's length, a character read and written, and where characters end.
#![tactic(auto)]

ghost use Rattle.std.specs.Prelude.{◌≡◌, ◌≤◌, length, drop};
ghost use Rattle.buffer.specs.Buffer.{Wrote};
ghost use Rattle.utf8.specs.Utf8.{Scalar, encode};
ghost use Rattle.utf8.specs.Decode.{length_from, decode2, decode3, decode4, decode};
ghost use Rattle.utf8.specs.Cut.{continuation, is_boundary, last_len};

// How many bytes a character has by its first byte's leading ones: one byte for none, else as many as there are, two to four; 0 for
// another count.
#[tactic(auto, using(crate::proofs::First::length_one, crate::proofs::First::length_some, crate::proofs::First::length_none, crate::proofs::First::length_above))]
pub fn char_len(first: u8) -> usize
    ensures { result ≡ length_from first }
{
    match (!first).leading_zeros() {
        0 => 1,
        ones @ 2..=4 => ones as usize,
        _ => 0,
    }
}

// Whether the byte continues a character: 10xxxxxx.
#[tactic(auto, unfolding(crate::specs::Cut::continuation))]
pub fn is_continuation(b: u8) -> bool
    ensures { result ≡ continuation b }
{
    b / 64 == 2
}

// A character of two bytes.
#[tactic(auto, unfolding(crate::specs::Decode::decode2, crate::specs::Cut::continuation))]
pub fn two(a: u8, b: u8) -> Option<(u32, usize)>
    ensures { result ≡ decode2 a b }
{
    if !is_continuation(b) {
        return None;
    }
    let scalar = (a % 32) as u32 * 64 + (b % 64) as u32;
    if scalar < 0x80 {
        return None;
    }
    Some((scalar, 2))
}

// A character of three bytes.
#[tactic(auto, unfolding(crate::specs::Decode::decode3, crate::specs::Decode::chosen3, crate::specs::Cut::continuation))]
pub fn three(a: u8, b: u8, c: u8) -> Option<(u32, usize)>
    ensures { result ≡ decode3 a b c }
{
    if !is_continuation(b) || !is_continuation(c) {
        return None;
    }
    let scalar = (a % 16) as u32 * 4096 + (b % 64) as u32 * 64 + (c % 64) as u32;
    match scalar {
        0..0x800 | 0xD800..0xE000 => None,
        _ => Some((scalar, 3)),
    }
}

// A character of four bytes.
#[tactic(auto, unfolding(crate::specs::Decode::decode4, crate::specs::Decode::chosen4, crate::specs::Cut::continuation))]
pub fn four(a: u8, b: u8, c: u8, d: u8) -> Option<(u32, usize)>
    ensures { result ≡ decode4 a b c d }
{
    if !is_continuation(b) || !is_continuation(c) || !is_continuation(d) {
        return None;
    }
    let scalar = (a % 8) as u32 * 262144
        + (b % 64) as u32 * 4096
        + (c % 64) as u32 * 64
        + (d % 64) as u32;
    match scalar {
        0x10000..0x110000 => Some((scalar, 4)),
        _ => None,
    }
}

// The character that starts at an offset of a text, and how many bytes it has.
pub fn decode_char(text: &[u8], at: usize) -> Option<(u32, usize)>
    ensures { result ≡ decode (drop at text.now) }
{
    if text.len() <= at {
        return None;
    }
    let first = text[at];
    let n = char_len(first);
    if text.len() - at < n {
        return None;
    }
    match n {
        1 => Some((u32::from(first), 1)),
        2 => two(first, text[at + 1]),
        3 => three(first, text[at + 1], text[at + 2]),
        4 => four(first, text[at + 1], text[at + 2], text[at + 3]),
        _ => None,
    }
}

// How many bytes a character has.
#[tactic(auto, unfolding(crate::specs::Utf8::encode))]
pub fn encoded_len(scalar: u32) -> usize
    ensures { result ≡ length (encode scalar) }
{
    match scalar {
        0..0x80 => 1,
        0x80..0x800 => 2,
        0x800..0x10000 => 3,
        _ => 4,
    }
}

// A character's encoding is written to the front of out.
#[tactic(auto, unfolding(crate::specs::Utf8::encode))]
pub fn encode_char(out: &mut [u8], scalar: u32) -> usize
    requires { Scalar scalar × (length (encode scalar) ≤ length out.old) }
    ensures { Wrote (encode scalar) result out.old out.new }
{
    match scalar {
        0..0x80 => buffer::put_bytes(out, &[scalar as u8]),
        0x80..0x800 => buffer::put_bytes(
            out,
            &[(0xC0 + scalar / 64) as u8, (0x80 + scalar % 64) as u8],
        ),
        0x800..0x10000 => buffer::put_bytes(
            out,
            &[
                (0xE0 + scalar / 4096) as u8,
                (0x80 + scalar / 64 % 64) as u8,
                (0x80 + scalar % 64) as u8,
            ],
        ),
        _ => buffer::put_bytes(
            out,
            &[
                (0xF0 + scalar / 262144) as u8,
                (0x80 + scalar / 4096 % 64) as u8,
                (0x80 + scalar / 64 % 64) as u8,
                (0x80 + scalar % 64) as u8,
            ],
        ),
    }
}

// Whether an offset is a character boundary: the end, or an offset where no byte 10xxxxxx stands.
#[tactic(auto, unfolding(crate::specs::Cut::is_boundary))]
pub fn is_boundary(text: &[u8], at: usize) -> bool
    ensures { result ≡ is_boundary text.now at }
{
    match text.get(at) {
        Some(&b) => !is_continuation(b),
        None => at == text.len(),
    }
}

// How many bytes the last character has: those from the last byte that is not 10xxxxxx to the end.
pub fn last_len(text: &[u8]) -> usize
    ensures { result ≡ last_len text.now }
{
    match text.iter().rposition(|b| !is_continuation(*b)) {
        Some(start) => text.len() - start,
        None => text.len(),
    }
}
