// What is checked of a text before it is read.
#![tactic(auto)]

ghost use Rattle.std.specs.Prelude.{◌≡◌};
ghost use Rattle.err.specs.Checked.{checked_of};
ghost use Rattle.text_check.specs.Checks.{text_fault};

use err::ParseErrorKind;

// At most 65,536 bytes, and UTF-8.
#[tactic(auto, unfolding(crate::specs::Checks::text_fault))]
pub fn check_text(text: &[u8]) -> Result<(), ParseErrorKind>
    ensures { checked_of result ≡ text_fault text.now }
{
    if err::MAX_LEN < text.len() {
        return Err(ParseErrorKind::TextTooLong);
    }
    if utf8_validation::is_utf8(text) {
        return Ok(());
    }
    Err(ParseErrorKind::NotUtf8)
}
