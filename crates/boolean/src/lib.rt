// Bool literals.
#![tactic(auto)]

ghost use Rattle.std.specs.Prelude.{◌≡◌};
ghost use Rattle.boolean.specs.Bool.{bool_read, parsed_of};

use err::{BoolLit, ParseError, ParseErrorKind};

// litrs's `BoolLit::parse`.
#[tactic(auto, using(crate::proofs::Laws::no_bool), unfolding(crate::specs::Bool::bool_read))]
pub fn parse(text: &[u8]) -> Result<BoolLit, ParseError>
    ensures { parsed_of result ≡ bool_read text.now }
{
    let value = match text {
        b"true" => true,
        b"false" => false,
        _ => return Err(err::perr_nowhere(ParseErrorKind::InvalidLiteral)),
    };
    Ok(BoolLit {
        end: text.len(),
        value,
    })
}
