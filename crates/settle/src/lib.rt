// Settled forms: the measure of a text's form, and the form written into a lent buffer. Any bytes may be handed in.
// The last clause of each public contract says that the text at exit is what it was at entry.
#![tactic(auto)]

ghost use Rattle.std.specs.Prelude.{◌≡◌, length, Ok};
ghost use Rattle.err.specs.Reading.{outcome_of};
ghost use Rattle.buffer.specs.Buffer.{Wrote};
ghost use Rattle.literal.specs.Readings.{read_at};
ghost use Rattle.settle.specs.Settled.{settled_of, measure_of, measure_at, settle_at, settle_buffer, form_by, Fits};

use err::{Kind, Literal, ParseError, ParseErrorKind};

// A form's kind and length, or why there is none.
pub type Settled = Result<(Kind, usize), ParseError>;

// The measure of a literal's form: 45 or 46, then 47.
fn measure_of(text: &[u8], found: Literal) -> Settled
    requires { outcome_of (Ok found) ≡ read_at 0 text.now }
    ensures { settled_of result ≡ measure_of text.now (outcome_of (Ok found)) }
{
    let n = form_reading::bare_len(text, Ok(found))?;
    let rest = text.len() - found.start_suffix();
    if err::MAX_LEN - rest < n {
        return Err(err::perr_nowhere(ParseErrorKind::FormTooLong));
    }
    Ok((found.kind(), n + rest))
}

// The form of a literal: the suffix is written into the rest of the buffer.
fn put_reading(out: &mut [u8], text: &[u8], found: Literal) -> usize
    requires { (outcome_of (Ok found) ≡ read_at 0 text.now) × Fits text.now (outcome_of (Ok found)) (length out.old) }
    ensures { Wrote (form_by text.now (outcome_of (Ok found))) result out.old out.new }
{
    let start = found.start_suffix();
    let at = form_reading::put_bare(out, text, found);
    at + buffer::put_bytes(&mut out[at..], &text[start..])
}

// The kind and length of a text's settled form, with no buffer.
pub fn measure(text: &[u8]) -> Settled
    ensures answer { settled_of result ≡ measure_at text.now }
    ensures text_unchanged { text.exit.now ≡ text.entry.now }
{
    let found = literal::read(0, text)?;
    measure_of(text, found)
}

// The form of a literal: measured first where it might not fit.
fn settle_found(text: &[u8], out: &mut [u8], found: Literal) -> Settled
    requires { outcome_of (Ok found) ≡ read_at 0 text.now }
    ensures answer { settled_of result ≡ settle_at text.now (length out.old) }
    ensures out_after { out.new ≡ settle_buffer text.now out.old }
{
    if !form_bound::fits_by_bound(text, Ok(found), out.len()) {
        let (_, n) = measure_of(text, found)?;
        if out.len() < n {
            return Err(err::perr_nowhere(ParseErrorKind::OutTooSmall));
        }
    }
    let n = put_reading(out, text, found);
    Ok((found.kind(), n))
}

// A text's settled form, written to the front of out. A refusal leaves every byte of out as it came.
pub fn settle(text: &[u8], out: &mut [u8]) -> Settled
    ensures answer { settled_of result ≡ settle_at text.now (length out.old) }
    ensures out_after { out.new ≡ settle_buffer text.now out.old }
    ensures text_unchanged { text.exit.now ≡ text.entry.now }
{
    let found = literal::read(0, text)?;
    settle_found(text, out, found)
}
