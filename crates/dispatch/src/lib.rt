// Which entry reads a text.
#![tactic(auto)]

ghost use Rattle.std.specs.Prelude.{◌≡◌, ◌<◌, IfErr};
ghost use Rattle.dispatch.specs.Entries.{starts_float, number_entry, byte_entry, entry_for, chosen_entry, entry_code, chosen_code};
ghost use Rattle.err.specs.Kinds.{kind_code};

use err::Kind;

// Whether a number with leading digits and `_` is a float: the first byte after them is `.`, `e` or `E`.
#[tactic(auto, unfolding(crate::specs::Entries::starts_float))]
fn starts_float(text: &[u8]) -> bool
    ensures { result ≡ starts_float text.now }
{
    let end = digits::end_dec_digits(text).end;
    if scan::byte_at(text, end) == b'.' {
        return true;
    }
    parse::has_e(text, end)
}

// Float or integer, for a text that starts with a decimal digit.
#[tactic(auto, unfolding(crate::specs::Entries::number_entry))]
fn number_entry(text: &[u8]) -> Kind
    ensures { kind_code result ≡ number_entry text.now }
{
    if starts_float(text) {
        Kind::Float
    } else {
        Kind::Integer
    }
}

// Of a text that starts with `b`: a byte, a byte string, or nothing that is known.
#[tactic(auto, unfolding(crate::specs::Entries::byte_entry))]
fn b_entry(text: &[u8]) -> Option<Kind>
    ensures { entry_code result ≡ byte_entry text.now }
{
    match text.get(1) {
        Some(b'\'') => Some(Kind::Byte),
        Some(b'r' | b'"') => Some(Kind::ByteString),
        _ => None,
    }
}

// The kind that entry 0 reads a text as, by its first byte, if it is known. A text of no bytes is read, and refused, as an integer.
fn entry_for(text: &[u8]) -> Option<Kind>
    ensures { entry_code result ≡ entry_for text.now }
{
    let Some(&b) = text.first() else {
        return Some(Kind::Integer);
    };
    // most texts are strings; tested by itself, so that LLVM goes on from here to the string's body
    if b == b'"' {
        return Some(Kind::String);
    }
    if b == b'\'' {
        return Some(Kind::Char);
    }
    if b == b'b' {
        return b_entry(text);
    }
    if parse::is_decimal(b) {
        return Some(number_entry(text));
    }
    match b {
        b'f' | b't' => Some(Kind::Bool),
        b'r' => Some(Kind::String),
        b'c' => Some(Kind::CString),
        _ => None,
    }
}

// The kind that reads a text by an entry code: that of the code, but for 0. Where there is none, a number that is no kind's code: the code itself, or 9 for
// a text that entry 0 does not know.
#[tactic(auto, unfolding(crate::specs::Entries::chosen_entry))]
pub fn chosen(code: u64, text: &[u8]) -> Result<Kind, u64>
    ensures number { chosen_code result ≡ chosen_entry code text.now }
    ensures none { IfErr result (λ n. 8 < n) }
{
    if code == 0 {
        return entry_for(text).ok_or(9);
    }
    Kind::from_code(code).ok_or(code)
}
