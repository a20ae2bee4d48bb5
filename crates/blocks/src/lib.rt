// Where a run of bytes of a set ends in a text: byte by byte, or by blocks of 64 bytes at once.
#![tactic(auto)]

ghost use Rattle.std.specs.Prelude.{◌≡◌, cond, ◌+◌, ◌-◌, ◌≤◌, min, length, drop};
ghost use Rattle.scan.specs.Run.{run};

use scan::ByteSet;

// j where the byte at j ends a run in a block of 64 bytes, else 64.
fn place<S: ByteSet>(b: u8, j: u8, set: S) -> u8
    ensures { result ≡ cond (S.holds set b) 64 j }
{
    if set.contains(b) { 64 } else { j }
}

// Where the run ends in 64 bytes. Branch-free, over one-byte numbers, so that LLVM vectorises it.
fn block_run<S: ByteSet>(s: &[u8], set: S) -> u8
    requires { length s.now ≡ 64 }
    ensures { result ≡ run (S.holds set) s.now }
{
    let mut m: u8 = 64;
    for j in 0..64u8 {
        m = m.min(place(s[j as usize], j, set));
    }
    m
}

// Where the run from an offset ends, or `stop` where it goes on, byte by byte.
pub fn byte_run<S: ByteSet>(s: &[u8], from: usize, stop: usize, set: S) -> usize
    requires { (from ≤ stop) × (stop ≤ length s.now) }
    ensures { result ≡ from + min (stop - from) (run (S.holds set) (drop from s.now)) }
{
    from + scan::run_len(&s[from..stop], set)
}

// Where the run from an offset ends, by blocks while there are 64 bytes.
pub fn block_end<S: ByteSet>(s: &[u8], from: usize, set: S) -> usize
    requires { from ≤ length s.now }
    ensures { result ≡ from + run (S.holds set) (drop from s.now) }
{
    let mut i = from;
    while let Some(block) = s.get(i..i + 64) {
        let m = block_run(block, set);
        if m < 64 {
            return i + m as usize;
        }
        i += 64;
    }
    byte_run(s, i, s.len(), set)
}

// Where the run from an offset ends. A short one pays for no block.
pub fn run_end<S: ByteSet>(s: &[u8], from: usize, set: S) -> usize
    requires { from ≤ length s.now }
    ensures { result ≡ from + run (S.holds set) (drop from s.now) }
{
    let stop = scan::clamped_end(from, 16, s.len());
    let i = byte_run(s, from, stop, set);
    if i < stop {
        return i;
    }
    // not `block_end(s, i, set)`: a slice that is handed on whole has to live in memory
    i + block_end(&s[i..], 0, set)
}
