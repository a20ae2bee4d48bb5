// The runs of bytes that stand for themselves in a quoted body.
#![tactic(auto)]

ghost use Rattle.std.specs.Prelude.{◌≡◌, ◌+◌, ◌≤◌, length, drop};
ghost use Rattle.scan.specs.Run.{run};
ghost use Rattle.scan.specs.Windows.{all_in};
ghost use Rattle.body_plain.specs.Plain.{plain_byte, in_plain};
ghost use Rattle.body_plain.specs.PlainInAll.{plain_in_all, in_plain_in_all, eight_plain};

use escape::Allowed;
use scan::{Ascii, ByteSet};

// The bytes that stand for themselves in a body of this kind.
#[derive(Clone, Copy)]
pub struct Plain(pub Allowed);

impl ByteSet for Plain {
    ghost holds = { in_plain };

    #[tactic(auto, unfolding(crate::specs::Plain::plain_byte))]
    fn contains(self, b: u8) -> bool {
        if b'"' < b {
            if 127 < b {
                return self.0.unicode();
            }
            return b != b'\\';
        }
        match b {
            b'"' | b'\r' => false,
            0 => self.0.allow_nul(),
            _ => true,
        }
    }
}

// Where the run at an offset ends. A short one pays for no block.
pub fn plain_end(s: &[u8], from: usize, k: Allowed) -> usize
    requires { from ≤ length s.now }
    ensures { result ≡ from + run (plain_byte k) (drop from s.now) }
{
    blocks::run_end(s, from, Plain(k))
}

// The bytes that stand for themselves in every kind of body, and those above 127. Zero bytes, which some kinds allow, are left to the loop over bytes.
#[derive(Clone, Copy)]
pub struct PlainInAll;

impl ByteSet for PlainInAll {
    ghost holds = { in_plain_in_all };

    // Four tests, all made, so that LLVM vectorises those of eight bytes.
    #[tactic(auto, unfolding(crate::specs::PlainInAll::plain_in_all))]
    fn contains(self, b: u8) -> bool {
        (b != b'\\') & (b != b'"') & ((b != b'\r') & (b != 0))
    }
}

// Whether the two bytes at an offset are in that set. By twos, since `all_in` of eight bytes, a loop of four tests for each, is not vectorised: with it a
// name of 22 bytes took twice as long and missed its goal.
fn two_plain_in_all(s: &[u8], at: usize) -> bool
    requires { at + 2 ≤ length s.now }
    ensures { result ≡ all_in plain_in_all at 2 s.now }
{
    PlainInAll.contains(s[at]) & PlainInAll.contains(s[at + 1])
}

// Whether the eight bytes at an offset are in that set.
fn eight_plain_in_all(s: &[u8], at: usize) -> bool
    requires { at + 8 ≤ length s.now }
    ensures { result ≡ all_in plain_in_all at 8 s.now }
{
    two_plain_in_all(s, at)
        & two_plain_in_all(s, at + 2)
        & (two_plain_in_all(s, at + 4) & two_plain_in_all(s, at + 6))
}

// Whether the eight bytes at an offset stand for themselves in a kind of body: without characters above 127 they are ASCII, too.
#[tactic(auto, unfolding(crate::specs::PlainInAll::eight_plain))]
fn eight_plain(s: &[u8], at: usize, k: Allowed) -> bool
    requires { at + 8 ≤ length s.now }
    ensures { result ≡ eight_plain k at s.now }
{
    if k.unicode() {
        return eight_plain_in_all(s, at);
    }
    scan::all_in::<Ascii, 8>(s, at, Ascii) & eight_plain_in_all(s, at)
}

// Where the run at the front ends. A short text is passed by eight bytes at once, up to its last byte, which most often is the closing quote.
pub fn front_end(s: &[u8], k: Allowed) -> usize
    ensures { result ≡ run (plain_byte k) s.now }
{
    if s.len() < 9 || 65 < s.len() {
        return blocks::block_end(s, 0, Plain(k));
    }
    let n = s.len() - 1;
    let last = n - 8;
    let mut at = 0;
    // no `for`: the last eight bytes overlap those before them
    while eight_plain(s, at, k) {
        if at == last {
            if s[n] == b'"' {
                return n;
            }
            return blocks::block_end(s, n, Plain(k));
        }
        at = scan::clamped_end(at, 8, last);
    }
    blocks::byte_run(s, at, s.len(), Plain(k))
}
