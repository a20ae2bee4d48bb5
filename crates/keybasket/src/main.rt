// Takes all of standard input as a text, settles it and prints one line: `ok`, the kind and the form, or `no`, the refusal number and its span.
#![tactic(auto)]

use err::MAX_LEN;
use std::io;
use std::io::Write;

// One byte more than a text may have is read, so that a longer text is refused as such.
fn main(rt: HostRuntime) -> io::Result<()> {
    let mut text = [0u8; MAX_LEN + 1];
    let mut out = [0u8; MAX_LEN];
    let mut line = [0u8; MAX_LEN + 128];
    let n = reader::read_full(&mut rt.stdin(), &mut text)?;
    let end = batch_record::program_line(&mut line, &text[0..n], &mut out);
    rt.stdout().write_all(&line[0..end])
}
