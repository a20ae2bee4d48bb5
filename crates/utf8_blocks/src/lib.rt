// Whether a long text is UTF-8: every byte is held against the three before it, in blocks. And the highest byte of a text.
#![tactic(auto)]

ghost use Rattle.std.specs.Prelude.{◌≡◌, cond, ◌+◌, ◌-◌, ◌≤◌, ◌<◌, ltb, length, take, drop};
ghost use Rattle.scan.specs.Run.{run};
ghost use Rattle.utf8.specs.Valid.{is_utf8};
ghost use Rattle.scan.specs.Sets.{ascii};
ghost use Rattle.utf8_blocks.specs.HighBytes.{highest_from};
ghost use Rattle.utf8_blocks.specs.Faults.{fault_mask, worst_from, worst_after_three, clean_after_three};
ghost use Rattle.utf8_blocks.specs.Faults as faults;

use scan::Ascii;

// The highest byte. Branch-free, so that LLVM vectorises it.
pub fn highest(s: &[u8]) -> u8
    ensures { result ≡ highest_from 0 s.now }
{
    let mut high: u8 = 0;
    for &b in s {
        high = high.max(b);
    }
    high
}

// How many bytes at the front stand in whole blocks of N bytes below 128.
fn ascii_blocks<const N: usize>(text: &[u8]) -> usize
    requires { 0 < N }
    ensures { (result ≤ length text.now) × (result + run ascii (drop result text.now) ≡ run ascii text.now) }
{
    let mut rest = text;
    while let Some((block, after)) = rest.split_at_checked(N) {
        if 127 < highest(block) {
            break;
        }
        rest = after;
    }
    text.len() - rest.len()
}

// How many bytes at the front are below 128: by large blocks, then by smaller ones. The last, which is no block of ASCII, is looked at byte
// by byte, unless it is the text's end and has no higher byte.
fn ascii_front(text: &[u8]) -> usize
    ensures { result ≡ run ascii text.now }
{
    let large = ascii_blocks::<256>(text);
    let at = large + ascii_blocks::<64>(&text[large..]);
    let rest = &text[at..];
    if rest.len() < 64 && highest(rest) < 128 {
        return text.len();
    }
    at + scan::run_len(rest, Ascii)
}

// A test as a byte: 255 where it holds.
#[tactic(auto, unfolding(crate::specs::Faults::mask))]
fn mask(t: bool) -> u8
    ensures { result ≡ faults.mask t }
{
    if t { 255 } else { 0 }
}

// The lead byte of three bytes after which a continuation byte is out of range: E0 for one below A0, ED for another.
fn three_byte_lead_against(x: u8) -> u8
    ensures { result ≡ cond (ltb x 0xA0) 0xE0 0xED }
{
    if x < 0xA0 { 0xE0 } else { 0xED }
}

// The lead byte of four bytes after which a continuation byte is out of range: F0 for one below 90, F4 for another.
fn four_byte_lead_against(x: u8) -> u8
    ensures { result ≡ cond (ltb x 0x90) 0xF0 0xF4 }
{
    if x < 0x90 { 0xF0 } else { 0xF4 }
}

// 255 where a byte breaks a rule after the three before it, else 0. Every test is made, so that LLVM vectorises `worst_fault`;
// a continuation byte is wanted where one of the three is a lead byte of enough bytes.
fn fault(c: u8, b: u8, a: u8, x: u8) -> u8
    ensures { result ≡ fault_mask c b a x }
{
    let wanted = a
        .saturating_sub(0x40)
        .max(b.saturating_sub(0x60).max(c.saturating_sub(0x70)));
    let odd = mask((127 < wanted) != utf8::is_continuation(x));
    let never = mask(x / 2 == 0x60).max(mask(0xF4 < x));
    let outside = mask(a == three_byte_lead_against(x)).max(mask(a == four_byte_lead_against(x)));
    odd.max(never.max(outside))
}

// 255 where a byte after the first three breaks a rule, else 0.
fn worst_fault(s: &[u8]) -> u8
    ensures { result ≡ worst_after_three s.now }
{
    let mut worst: u8 = 0;
    for i in 3..s.len() {
        worst = worst.max(fault(s[i - 3], s[i - 2], s[i - 1], s[i]));
    }
    worst
}

// 255 where one of the first three bytes of a text breaks a rule, else 0.
fn first_fault(text: &[u8]) -> u8
    requires { 3 ≤ length text.now }
    ensures { result ≡ worst_from 0 0 0 0 (take 3 text.now) }
{
    let front: [u8; 6] = [0, 0, 0, text[0], text[1], text[2]];
    worst_fault(&front)
}

// Whether no continuation byte is wanted after the last three bytes of a text.
fn ends_clean(text: &[u8]) -> bool
    requires { 3 ≤ length text.now }
    ensures { result ≡ clean_after_three (drop (length text.now - 3) text.now) }
{
    let n = text.len();
    if 0xC0 <= text[n - 1] || 0xE0 <= text[n - 2] {
        return false;
    }
    text[n - 3] < 0xF0
}

// Whether no byte from an offset on is at fault, and no continuation byte is wanted at the end: by blocks, then the rest at once.
fn clean_from(text: &[u8], from: usize) -> bool
    requires { (3 ≤ from) × (from ≤ length text.now) }
    ensures { result ≡ clean_after_three (drop (from - 3) text.now) }
{
    let mut at = from;
    while let Some(block) = text.get(at - 3..at + 256) {
        if worst_fault(block) != 0 {
            return false;
        }
        at += 256;
    }
    worst_fault(&text[at - 3..]) == 0 && ends_clean(text)
}

// Whether a long text is UTF-8: what is ASCII at the front is passed in blocks, then every byte is held against the three before it.
pub fn long_utf8(text: &[u8]) -> bool
    requires { 3 ≤ length text.now }
    ensures { result ≡ is_utf8 text.now }
{
    let at = ascii_front(text);
    if at == text.len() {
        return true;
    }
    if 3 <= at {
        return clean_from(text, at);
    }
    if first_fault(text) != 0 {
        return false;
    }
    clean_from(text, 3)
}
