// In what char and byte literals differ, and what stands after their opening quote where it is no escape.
#![tactic(auto)]

ghost use Rattle.std.specs.Prelude.{◌≡◌, ◌<◌, length, Ok, Err};
ghost use Rattle.err.specs.Outcome as outcome;
ghost use Rattle.err.specs.Numbers.{number_of};
ghost use Rattle.err.specs.Reading.{refusal_of, outcome_of};
ghost use Rattle.character_quote.specs.Quote.{quote_kind, offset_of, allowed_in, unterminated, overlong, empty, opens_by, start_fault, ValueFits};
ghost use Rattle.character_quote.specs.Content.{inner_of, plain_at, special, quote_at};

use err::{ByteLit, CharLit, Literal, ParseError, ParseErrorKind};
use escape::Allowed;

// Which of the two kinds.
#[derive(Clone, Copy)]
pub enum Quote {
    Char,
    Byte,
}

impl Quote {
    // Where the character starts: after `'` or `b'`.
    pub fn offset(self) -> usize
        ensures { result ≡ offset_of self }
    {
        match self {
            Quote::Char => 1,
            Quote::Byte => 2,
        }
    }

    // What the kind's escapes allow.
    pub fn allowed(self) -> Allowed
        ensures { result ≡ allowed_in self }
    {
        match self {
            Quote::Char => Allowed::Text,
            Quote::Byte => Allowed::Bytes,
        }
    }

    // What a missing closing quote is refused with.
    pub fn unterminated(self) -> ParseErrorKind
        ensures { number_of result ≡ unterminated self }
    {
        match self {
            Quote::Char => ParseErrorKind::UnterminatedCharLiteral,
            Quote::Byte => ParseErrorKind::UnterminatedByteLiteral,
        }
    }

    // What more than one character is refused with.
    pub fn overlong(self) -> ParseErrorKind
        ensures { number_of result ≡ overlong self }
    {
        match self {
            Quote::Char => ParseErrorKind::OverlongCharLiteral,
            Quote::Byte => ParseErrorKind::OverlongByteLiteral,
        }
    }

    // What no character at all is refused with.
    fn empty(self) -> ParseErrorKind
        ensures { number_of result ≡ empty self }
    {
        match self {
            Quote::Char => ParseErrorKind::EmptyCharLiteral,
            Quote::Byte => ParseErrorKind::EmptyByteLiteral,
        }
    }

    // Whether a text starts with the quote.
    pub fn opens(self, text: &[u8]) -> bool
        ensures { result ≡ opens_by self text.now }
    {
        match self {
            Quote::Char => text.starts_with(b"'"),
            Quote::Byte => text.starts_with(b"b'"),
        }
    }

    // What another start is refused with.
    pub fn refused_start(self) -> ParseError
        ensures { refusal_of result ≡ start_fault self }
    {
        match self {
            Quote::Char => err::perr(ParseErrorKind::DoesNotStartWithQuote, 0, 1),
            Quote::Byte => err::perr_nowhere(ParseErrorKind::InvalidByteLiteralStart),
        }
    }

    // The literal of the kind.
    pub fn literal(self, value: u32, start_suffix: usize) -> Literal
        requires { ValueFits self value }
        ensures { outcome_of (Ok result) ≡ outcome.accepted (quote_kind self) start_suffix (outcome.value value) }
    {
        match self {
            Quote::Char => Literal::Char(CharLit {
                value,
                start_suffix,
            }),
            Quote::Byte => Literal::Byte(ByteLit {
                value: value as u8,
                start_suffix,
            }),
        }
    }
}

// What stands between the quotes: its number and how many bytes it has, or the refusal.
pub type Inner = Result<(u32, usize), ParseError>;

// A char that stands for itself.
fn plain_char(text: &[u8], at: usize) -> Inner
    ensures { inner_of result ≡ plain_at Quote.Char text.now at }
{
    utf8::decode_char(text, at).ok_or(err::perr_nowhere(ParseErrorKind::UnterminatedCharLiteral))
}

// A byte that stands for itself.
fn plain_byte(text: &[u8], at: usize) -> Inner
    requires { at < length text.now }
    ensures { inner_of result ≡ plain_at Quote.Byte text.now at }
{
    let b = text[at];
    if b < 128 {
        return Ok((u32::from(b), 1));
    }
    Err(err::perr(ParseErrorKind::NonAsciiInByteLiteral, at, at + 1))
}

// A character that is no escape.
pub fn plain(text: &[u8], at: usize, q: Quote) -> Inner
    requires { at < length text.now }
    ensures { inner_of result ≡ plain_at q text.now at }
{
    match q {
        Quote::Char => plain_char(text, at),
        Quote::Byte => plain_byte(text, at),
    }
}

// Whether LF, tab or CR stands there.
#[tactic(auto, unfolding(crate::specs::Content::special))]
pub fn is_special(b: u8) -> bool
    ensures { result ≡ special b }
{
    if b == b'\n' {
        return true;
    }
    if b == b'\t' {
        return true;
    }
    b == b'\r'
}

// The refusal of a quote at once: another after it makes it one that was not escaped.
#[tactic(auto, unfolding(crate::specs::Content::quote_at))]
pub fn quote_first(text: &[u8], at: usize, q: Quote) -> ParseError
    requires { at < length text.now }
    ensures { inner_of (Err result) ≡ quote_at q text.now at }
{
    if scan::byte_at(text, at + 1) == b'\'' {
        return err::perr(ParseErrorKind::UnescapedSingleQuote, at, at + 1);
    }
    err::perr_nowhere(q.empty())
}
