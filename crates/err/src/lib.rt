// Spans, errors, literals and readings: what every parser here returns.
#![tactic(auto)]

ghost use Rattle.std.specs.Prelude.{◌≡◌, ◌-◌, Ok};
ghost use Rattle.err.specs.Numbers.{number_of};
ghost use Rattle.err.specs.Outcome.{refused, none, between, shift, Ends};
ghost use Rattle.err.specs.Reading.{place_of, base_of, prefix_of, refusal_of, outcome_of, kind_in, suffix_in};
ghost use Rattle.err.specs.Kinds.{kind_code, kind_coded};

// No text and no form is longer (01: "65,536 bytes").
pub const MAX_LEN: usize = 65536;

// From one offset to another, the second excluded.
#[derive(Clone, Copy)]
pub struct Span {
    pub start: usize,
    pub end: usize,
}

// Why a text is refused: litrs's error kinds, and from BadCode on those that were added.
#[derive(Clone, Copy)]
pub enum ParseErrorKind {
    Empty,
    UnexpectedChar,
    InvalidLiteral,
    DoesNotStartWithDigit,
    InvalidDigit,
    NoDigits,
    NoExponentDigits,
    UnknownEscape,
    UnterminatedEscape,
    InvalidXEscape,
    NonAsciiXEscape,
    UnicodeEscapeInByteLiteral,
    InvalidStartOfUnicodeEscape,
    UnicodeEscapeWithoutBrace,
    NonHexDigitInUnicodeEscape,
    TooManyDigitInUnicodeEscape,
    InvalidUnicodeEscapeChar,
    UnterminatedUnicodeEscape,
    UnterminatedCharLiteral,
    OverlongCharLiteral,
    EmptyCharLiteral,
    UnterminatedByteLiteral,
    OverlongByteLiteral,
    EmptyByteLiteral,
    NonAsciiInByteLiteral,
    UnescapedSingleQuote,
    UnescapedSpecialWhitespace,
    DoesNotStartWithQuote,
    UnterminatedRawString,
    UnterminatedString,
    InvalidStringLiteralStart,
    InvalidByteLiteralStart,
    InvalidByteStringLiteralStart,
    InvalidCStringLiteralStart,
    DisallowedNulEscape,
    NulByte,
    CarriageReturn,
    TooManyHashes,
    InvalidSuffix,
    UnexpectedIntegerLit,
    IntegerSuffixStartingWithE,
    BadCode,
    TextTooLong,
    NotUtf8,
    NoValue,
    PowerTooFar,
    FormTooLong,
    OutTooSmall,
}

// Why a text is refused, and where, if there is a place: litrs's `ParseError`. The kind stands first, in the word where an accepted reading has
// its literal's kind.
#[derive(Clone, Copy)]
pub struct ParseError {
    pub kind: ParseErrorKind,
    pub span: Option<Span>,
}

impl ParseError {
    // The same error with its span counted from an offset before its text.
    pub fn offset_span(self, offset: usize) -> ParseError
        requires { Ends (18446744073709551615 - offset) (place_of self.span) }
        ensures { refusal_of result ≡ refused (number_of self.kind) (shift offset (place_of self.span)) }
    {
        let Some(span) = self.span else {
            return self;
        };
        ParseError {
            span: Some(Span {
                start: span.start + offset,
                end: span.end + offset,
            }),
            kind: self.kind,
        }
    }
}

#[derive(Clone, Copy)]
pub enum IntegerBase {
    Binary,
    Octal,
    Decimal,
    Hexadecimal,
}

impl IntegerBase {
    // 2, 8, 10 or 16.
    pub fn value(self) -> u8
        ensures { result ≡ base_of self }
    {
        match self {
            IntegerBase::Binary => 2,
            IntegerBase::Octal => 8,
            IntegerBase::Decimal => 10,
            IntegerBase::Hexadecimal => 16,
        }
    }

    // `0b`, `0o`, nothing or `0x`.
    pub fn prefix(self) -> &'static [u8]
        ensures { result.now ≡ prefix_of self }
    {
        match self {
            IntegerBase::Binary => b"0b",
            IntegerBase::Octal => b"0o",
            IntegerBase::Decimal => b"",
            IntegerBase::Hexadecimal => b"0x",
        }
    }
}

// The literals. A field of less than eight bytes stands second in each, so that in a reading all of them share one word: a word that is written in parts and
// read whole makes every reader wait.

// A bool: where its text ends, which is the start of its empty suffix, and its truth.
#[derive(Clone, Copy)]
pub struct BoolLit {
    pub end: usize,
    pub value: bool,
}

// An integer: both ends of its digits, how many of these bytes are digits (02, d), and its base. The suffix starts where the digits end.
#[derive(Clone, Copy)]
pub struct IntegerLit {
    pub start_main_part: usize,
    pub base: IntegerBase,
    pub end_main_part: usize,
    pub digits: usize,
}

// A float: where the integer part, the fractional part and the exponent end, and how many digits each has (02, d). The suffix starts at the last end.
#[derive(Clone, Copy)]
pub struct FloatLit {
    pub end_integer_part: usize,
    pub end_fractional_part: usize,
    pub end_number_part: usize,
    pub integer_digits: usize,
    pub fractional_digits: usize,
    pub exponent_digits: usize,
}

#[derive(Clone, Copy)]
pub struct CharLit {
    pub start_suffix: usize,
    pub value: u32,
}

#[derive(Clone, Copy)]
pub struct ByteLit {
    pub start_suffix: usize,
    pub value: u8,
}

// A string, a byte string or a C string: its value is not kept, only how many bytes it has. A raw one has a number of hashes.
#[derive(Clone, Copy)]
pub struct StringLit {
    pub value_len: usize,
    pub hashes: Option<u8>,
    pub start_suffix: usize,
}

// The kinds of literals.
#[derive(Clone, Copy)]
pub enum Kind {
    Bool,
    Integer,
    Float,
    Char,
    String,
    Byte,
    ByteString,
    CString,
}

impl Kind {
    // The kind that a code stands for, if it is one from 1 to 8.
    pub fn from_code(code: u64) -> Option<Kind>
        ensures { result ≡ kind_coded code }
    {
        match code {
            1 => Some(Kind::Bool),
            2 => Some(Kind::Integer),
            3 => Some(Kind::Float),
            4 => Some(Kind::Char),
            5 => Some(Kind::String),
            6 => Some(Kind::Byte),
            7 => Some(Kind::ByteString),
            8 => Some(Kind::CString),
            _ => None,
        }
    }

    // The kind's code: 1 to 8.
    pub fn code(self) -> u8
        ensures { result ≡ kind_code self }
    {
        match self {
            Kind::Bool => 1,
            Kind::Integer => 2,
            Kind::Float => 3,
            Kind::Char => 4,
            Kind::String => 5,
            Kind::Byte => 6,
            Kind::ByteString => 7,
            Kind::CString => 8,
        }
    }
}

// A literal of any kind: litrs's `Literal`.
#[derive(Clone, Copy)]
pub enum Literal {
    Bool(BoolLit),
    Integer(IntegerLit),
    Float(FloatLit),
    Char(CharLit),
    String(StringLit),
    Byte(ByteLit),
    ByteString(StringLit),
    CString(StringLit),
}

impl Literal {
    pub fn kind(self) -> Kind
        ensures { kind_code result ≡ kind_in (outcome_of (Ok self)) }
    {
        match self {
            Literal::Bool(_) => Kind::Bool,
            Literal::Integer(_) => Kind::Integer,
            Literal::Float(_) => Kind::Float,
            Literal::Char(_) => Kind::Char,
            Literal::String(_) => Kind::String,
            Literal::Byte(_) => Kind::Byte,
            Literal::ByteString(_) => Kind::ByteString,
            Literal::CString(_) => Kind::CString,
        }
    }

    // Where the suffix starts.
    pub fn start_suffix(self) -> usize
        ensures { result ≡ suffix_in (outcome_of (Ok self)) }
    {
        match self {
            Literal::Bool(lit) => lit.end,
            Literal::Integer(lit) => lit.end_main_part,
            Literal::Float(lit) => lit.end_number_part,
            Literal::Char(lit) => lit.start_suffix,
            Literal::String(lit) => lit.start_suffix,
            Literal::Byte(lit) => lit.start_suffix,
            Literal::ByteString(lit) => lit.start_suffix,
            Literal::CString(lit) => lit.start_suffix,
        }
    }
}

// What reading a text returns.
pub type Reading = Result<Literal, ParseError>;

// The number of an error kind.
pub fn number(k: ParseErrorKind) -> u8
    ensures { result ≡ number_of k }
{
    match k {
        ParseErrorKind::Empty => 1,
        ParseErrorKind::UnexpectedChar => 2,
        ParseErrorKind::InvalidLiteral => 3,
        ParseErrorKind::DoesNotStartWithDigit => 4,
        ParseErrorKind::InvalidDigit => 5,
        ParseErrorKind::NoDigits => 6,
        ParseErrorKind::NoExponentDigits => 7,
        ParseErrorKind::UnknownEscape => 8,
        ParseErrorKind::UnterminatedEscape => 9,
        ParseErrorKind::InvalidXEscape => 10,
        ParseErrorKind::NonAsciiXEscape => 11,
        ParseErrorKind::UnicodeEscapeInByteLiteral => 12,
        ParseErrorKind::InvalidStartOfUnicodeEscape => 13,
        ParseErrorKind::UnicodeEscapeWithoutBrace => 14,
        ParseErrorKind::NonHexDigitInUnicodeEscape => 15,
        ParseErrorKind::TooManyDigitInUnicodeEscape => 16,
        ParseErrorKind::InvalidUnicodeEscapeChar => 17,
        ParseErrorKind::UnterminatedUnicodeEscape => 18,
        ParseErrorKind::UnterminatedCharLiteral => 19,
        ParseErrorKind::OverlongCharLiteral => 20,
        ParseErrorKind::EmptyCharLiteral => 21,
        ParseErrorKind::UnterminatedByteLiteral => 22,
        ParseErrorKind::OverlongByteLiteral => 23,
        ParseErrorKind::EmptyByteLiteral => 24,
        ParseErrorKind::NonAsciiInByteLiteral => 25,
        ParseErrorKind::UnescapedSingleQuote => 26,
        ParseErrorKind::UnescapedSpecialWhitespace => 27,
        ParseErrorKind::DoesNotStartWithQuote => 28,
        ParseErrorKind::UnterminatedRawString => 29,
        ParseErrorKind::UnterminatedString => 30,
        ParseErrorKind::InvalidStringLiteralStart => 31,
        ParseErrorKind::InvalidByteLiteralStart => 32,
        ParseErrorKind::InvalidByteStringLiteralStart => 33,
        ParseErrorKind::InvalidCStringLiteralStart => 34,
        ParseErrorKind::DisallowedNulEscape => 35,
        ParseErrorKind::NulByte => 36,
        ParseErrorKind::CarriageReturn => 37,
        ParseErrorKind::TooManyHashes => 38,
        ParseErrorKind::InvalidSuffix => 39,
        ParseErrorKind::UnexpectedIntegerLit => 40,
        ParseErrorKind::IntegerSuffixStartingWithE => 41,
        ParseErrorKind::BadCode => 42,
        ParseErrorKind::TextTooLong => 43,
        ParseErrorKind::NotUtf8 => 44,
        ParseErrorKind::NoValue => 45,
        ParseErrorKind::PowerTooFar => 46,
        ParseErrorKind::FormTooLong => 47,
        ParseErrorKind::OutTooSmall => 48,
    }
}

// A refusal at a span, as litrs's `perr` with a range.
pub fn perr(kind: ParseErrorKind, start: usize, end: usize) -> ParseError
    ensures { refusal_of result ≡ refused (number_of kind) (between start end) }
{
    ParseError {
        span: Some(Span { start, end }),
        kind,
    }
}

// A refusal with no span, as litrs's `perr` with `None`.
pub fn perr_nowhere(kind: ParseErrorKind) -> ParseError
    ensures { refusal_of result ≡ refused (number_of kind) none }
{
    ParseError { span: None, kind }
}
