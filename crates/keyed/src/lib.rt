// The keyed entry (02, d): it reads as entry 0 does, but refuses numbers with too many digits.
#![tactic(auto)]

ghost use Rattle.std.specs.Prelude.{◌≡◌, Ok};
ghost use Rattle.err.specs.Counts.{counts_of};
ghost use Rattle.digits.specs.Counts.{digit_counts};
ghost use Rattle.keyed.specs.Keyed.{keyed_of, keyed_counts, overlong, keyed_at};
ghost use Rattle.keyed.specs.declared.KeyedError.TheVariants.{Parse, Added};

use err::{Literal, ParseError};
use err_added::AddedErrorKind;

// Why the keyed entry refuses a text: as entry 0 does, or by the refusal that it adds.
#[derive(Clone, Copy)]
pub enum KeyedError {
    Parse(ParseError),
    Added(AddedErrorKind),
}

impl From<ParseError> for KeyedError {
    ghost from_gives = { λ e k. k ≡ Parse e };

    fn from(error: ParseError) -> KeyedError {
        KeyedError::Parse(error)
    }
}

impl From<AddedErrorKind> for KeyedError {
    ghost from_gives = { λ e k. k ≡ Added e };

    fn from(kind: AddedErrorKind) -> KeyedError {
        KeyedError::Added(kind)
    }
}

// Whether a number has over 40 digits; those of an exponent do not count.
fn is_overlong(found: Literal) -> bool
    ensures { result ≡ overlong (counts_of (Ok found)) }
{
    match found {
        Literal::Integer(lit) => 40 < lit.digits,
        Literal::Float(lit) => {
            let whole = lit.integer_digits;
            // the sum of both counts could overflow
            if 40 < whole {
                return true;
            }
            40 - whole < lit.fractional_digits
        }
        _ => false,
    }
}

// The reading of a text by the keyed entry.
pub fn read_keyed(text: &[u8]) -> Result<Literal, KeyedError>
    ensures outcome { keyed_of result ≡ keyed_at text.now }
    ensures counts { keyed_counts result ≡ digit_counts text.now (keyed_at text.now) }
    ensures text_unchanged { text.exit.now ≡ text.entry.now }
{
    let found = literal::read(0, text)?;
    if is_overlong(found) {
        return Err(AddedErrorKind::TooManyDigits.into());
    }
    Ok(found)
}
