// The refusals that document 02 adds, with numbers from 50 on. They have no span.
#![tactic(auto)]

ghost use Rattle.std.specs.Prelude.{◌≡◌};
ghost use Rattle.err_added.specs.Numbers.{added_number};

// Why a call of document 02 refuses what it is given.
#[derive(Clone, Copy)]
pub enum AddedErrorKind {
    TooManyDigits,
}

// The number of an added error kind.
pub fn number(kind: AddedErrorKind) -> u8
    ensures { result ≡ added_number kind }
{
    match kind {
        AddedErrorKind::TooManyDigits => 53,
    }
}
