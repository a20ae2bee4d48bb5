// Reading a byte or 0, and which bytes of a text are in a set.
#![tactic(auto)]

ghost use Rattle.std.specs.Prelude.{◌≡◌, ℕ, Bool, ◌+◌, ◌-◌, ◌≤◌, min, length, get_or};
ghost use Rattle.scan.specs.Run.{run};
ghost use Rattle.scan.specs.Sets.{in_except, in_only, in_ascii};
ghost use Rattle.scan.specs.Windows.{all_in};

// A set of bytes that a scan passes over.
pub trait ByteSet: Copy {
    ghost holds: { Self → ℕ → Bool };

    fn contains(self, b: u8) -> bool
        ensures { result ≡ holds self b };
}

// All bytes but one.
#[derive(Clone, Copy)]
pub struct Except(pub u8);

impl ByteSet for Except {
    ghost holds = { in_except };

    #[tactic(auto, unfolding(crate::specs::Sets::except))]
    fn contains(self, b: u8) -> bool {
        b != self.0
    }
}

// One byte.
#[derive(Clone, Copy)]
pub struct Only(pub u8);

impl ByteSet for Only {
    ghost holds = { in_only };

    #[tactic(auto, unfolding(crate::specs::Sets::only))]
    fn contains(self, b: u8) -> bool {
        b == self.0
    }
}

// The ASCII bytes.
#[derive(Clone, Copy)]
pub struct Ascii;

impl ByteSet for Ascii {
    ghost holds = { in_ascii };

    #[tactic(auto, unfolding(crate::specs::Sets::ascii))]
    fn contains(self, b: u8) -> bool {
        b < 128
    }
}

// The byte at an index, or 0 past the end: for a caller that looks for a byte other than 0, who is spared `Some(&..)`.
pub fn byte_at(s: &[u8], i: usize) -> u8
    ensures { result ≡ get_or s.now i 0 }
{
    s.get(i).copied().unwrap_or(0)
}

// Whether the N bytes at an offset are all in the set. Every byte is tested, joined by `&`, so that LLVM vectorises it.
pub fn all_in<S: ByteSet, const N: usize>(s: &[u8], at: usize, set: S) -> bool
    requires { at + N ≤ length s.now }
    ensures { result ≡ all_in (S.holds set) at N s.now }
{
    let mut all = true;
    for b in &s[at..at + N] {
        all &= set.contains(*b);
    }
    all
}

// An offset `step` bytes further, clamped to the end.
pub fn clamped_end(from: usize, step: usize, end: usize) -> usize
    requires { from ≤ end }
    ensures { result ≡ from + min step (end - from) }
{
    from + step.min(end - from)
}

// How many bytes at the front are in the set. Not by `position`, with which a long suffix takes twice as long.
pub fn run_len<S: ByteSet>(s: &[u8], set: S) -> usize
    ensures { result ≡ run (S.holds set) s.now }
{
    let mut i = 0;
    while i < s.len() {
        if !set.contains(s[i]) {
            return i;
        }
        i += 1;
    }
    i
}
