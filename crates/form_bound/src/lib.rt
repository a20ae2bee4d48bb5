// Whether a string's settled form is known to fit from lengths alone, by the bound of four bytes for one.
#![tactic(auto)]

ghost use Rattle.std.specs.Prelude.{◌≡◌, Ok};
ghost use Rattle.err.specs.Reading.{outcome_of};
ghost use Rattle.literal.specs.Readings.{read_at};
ghost use Rattle.form_bound.specs.Bound.{bound_fits, fits_by_bound};

use err::{Literal, Reading};

// Whether a value of so many bytes, each at most four in a form, fits with the suffix after it.
fn bound_fits(value_len: usize, rest: usize, room: usize) -> bool
    ensures { result ≡ bound_fits value_len rest room }
{
    if err::MAX_LEN < value_len {
        return false;
    }
    if err::MAX_LEN < rest {
        return false;
    }
    let n = 4 * value_len + 3 + rest;
    if err::MAX_LEN < n {
        return false;
    }
    n <= room
}

// Whether the form of a literal that was read from the text fits by the bound: only strings are judged so.
fn literal_fits(text: &[u8], literal: Literal, room: usize) -> bool
    requires { outcome_of (Ok literal) ≡ read_at 0 text.now }
    ensures { result ≡ fits_by_bound text.now (outcome_of (Ok literal)) room }
{
    match literal {
        Literal::String(lit) | Literal::ByteString(lit) | Literal::CString(lit) => {
            bound_fits(lit.value_len, text.len() - lit.start_suffix, room)
        }
        _ => false,
    }
}

// Whether a string's form fits by the bound: then it need not be measured before it is written.
pub fn fits_by_bound(text: &[u8], found: Reading, room: usize) -> bool
    requires { outcome_of found ≡ read_at 0 text.now }
    ensures { result ≡ fits_by_bound text.now (outcome_of found) room }
{
    match found {
        Ok(literal) => literal_fits(text, literal, room),
        Err(_) => false,
    }
}
