// The check of a suffix.
#![tactic(auto)]

ghost use Rattle.std.specs.Prelude.{◌≡◌};
ghost use Rattle.err.specs.Checked.{checked_of};
ghost use Rattle.scan.specs.Run.{run};
ghost use Rattle.parse.specs.Sets.{suffix_rest};
ghost use Rattle.suffix.specs.Suffix.{suffix_fault, suffix_start};

use err::ParseErrorKind;
use parse::SuffixRest;

// A letter, `_` or a byte above 127.
#[tactic(auto, using(crate::proofs::Starts::start_is))]
fn starts_suffix(b: u8) -> bool
    ensures { result ≡ suffix_start b }
{
    b.is_ascii_alphabetic() || b == b'_' || 127 < b
}

// How many bytes at the front may follow in a suffix: byte by byte, of a long text by blocks.
fn rest_len(rest: &[u8]) -> usize
    ensures { result ≡ run suffix_rest rest.now }
{
    if rest.len() < 64 {
        return scan::run_len(rest, SuffixRest);
    }
    blocks::block_end(rest, 0, SuffixRest)
}

// What is wrong with a suffix: litrs's `check_suffix`.
#[tactic(auto, unfolding(crate::specs::Suffix::suffix_fault, crate::specs::Suffix::fault_from))]
pub fn check_suffix(s: &[u8]) -> Result<(), ParseErrorKind>
    ensures { checked_of result ≡ suffix_fault s.now }
{
    let [first, rest @ ..] = s else {
        return Ok(());
    };
    if *first == b'_' && rest.is_empty() {
        return Err(ParseErrorKind::InvalidSuffix);
    }
    if !starts_suffix(*first) {
        return Err(ParseErrorKind::UnexpectedChar);
    }
    if rest_len(rest) == rest.len() {
        Ok(())
    } else {
        Err(ParseErrorKind::InvalidSuffix)
    }
}
