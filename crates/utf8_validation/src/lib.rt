// Whether a text is UTF-8: a short one, where it is not ASCII, is checked character by character, a long one byte by byte in blocks.
#![tactic(auto)]

ghost use Rattle.std.specs.Prelude.{◌≡◌, ◌<◌, length, drop};
ghost use Rattle.utf8.specs.Decode.{decode, len_of};
ghost use Rattle.utf8.specs.Valid.{is_utf8};
ghost use Rattle.utf8_validation.specs.Ascii.{is_ascii};

use scan::Ascii;

// Whether a text is ASCII: one of 4 to 32 bytes by its first and its last four, eight or sixteen, another by its highest byte.
#[tactic(auto, using(crate::proofs::Ascii::ascii_ends, crate::proofs::Ascii::ascii_highest))]
fn is_ascii(text: &[u8]) -> bool
    ensures { result ≡ is_ascii text.now }
{
    let n = text.len();
    match n {
        // an arm of its own: in it LLVM knows that the loop is short
        0..4 => utf8_blocks::highest(text) < 128,
        4..8 => scan::all_in::<Ascii, 4>(text, n - 4, Ascii)
            & scan::all_in::<Ascii, 4>(text, 0, Ascii),
        8..16 => scan::all_in::<Ascii, 8>(text, n - 8, Ascii)
            & scan::all_in::<Ascii, 8>(text, 0, Ascii),
        16..33 => scan::all_in::<Ascii, 16>(text, n - 16, Ascii)
            & scan::all_in::<Ascii, 16>(text, 0, Ascii),
        _ => utf8_blocks::highest(text) < 128,
    }
}

// How many bytes a character has that was found; 0 where there is none.
fn found_len(found: Option<(u32, usize)>) -> usize
    ensures { result ≡ len_of found }
{
    found.map_or(0, |(_, len)| len)
}

// How many bytes the character at an offset has, read from its first byte; 0 where there is none. Not `decode_char`: a name with é would
// take half as long again.
fn valid_len(text: &[u8], at: usize) -> usize
    requires { at < length text.now }
    ensures { result ≡ len_of (decode (drop at text.now)) }
{
    let first = text[at];
    let n = utf8::char_len(first);
    if n == 1 {
        return 1;
    }
    if text.len() - at < n {
        return 0;
    }
    match n {
        2 => found_len(utf8::two(first, text[at + 1])),
        3 => found_len(utf8::three(first, text[at + 1], text[at + 2])),
        4 => found_len(utf8::four(first, text[at + 1], text[at + 2], text[at + 3])),
        _ => 0,
    }
}

// Whether a short text is UTF-8: ASCII, or one character after another.
fn short_utf8(text: &[u8]) -> bool
    ensures { result ≡ is_utf8 text.now }
{
    if is_ascii(text) {
        return true;
    }
    let mut at = 0;
    // no `for`: a turn goes on by a length that it finds
    while at < text.len() {
        let n = valid_len(text, at);
        if n == 0 {
            return false;
        }
        at += n;
    }
    true
}

// Whether a text is UTF-8.
pub fn is_utf8(text: &[u8]) -> bool
    ensures { result ≡ is_utf8 text.now }
{
    if text.len() < 128 {
        return short_utf8(text);
    }
    utf8_blocks::long_utf8(text)
}
