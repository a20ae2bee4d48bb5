// Takes a batch of records from standard input (docs/BATCH.md) and prints one line for each.
#![tactic(auto)]

ghost use Rattle.std.specs.Prelude.{◌≡◌, false, true, ◌+◌, ◌*◌, ◌≤◌, ◌⊎◌, length, IfOk, OnErr};
ghost use Rattle.buffer.specs.Buffer.{over};
ghost use Rattle.batch.specs.Record.{number_at, head_line, head_buffer, Recorded, Lent};

use std::io;
use std::io::{Read, Write};

// Four bytes, the least first.
fn number_at(head: &[u8; 10], at: usize) -> usize
    requires { at ≤ 6 }
    ensures { result ≡ number_at head.now at }
{
    u32::from_le_bytes([head[at], head[at + 1], head[at + 2], head[at + 3]]) as usize
}

// A record that breaks off or is too large: no other follows.
fn bad_record<W: Write>(output: &mut W) -> io::Result<bool>
    ensures { IfOk result (λ more. more ≡ false) }
{
    output.write_all(b"bad record\n")?;
    Ok(false)
}

// The line of a record with this head and text is made and printed. It stands in `line` also where a write failed.
fn print_record<W: Write>(
    output: &mut W,
    line: &mut [u8],
    head: &[u8; 10],
    text: &[u8],
    out: &mut [u8],
) -> io::Result<()>
    requires { (number_at head.now 2 ≤ length out.old) × (192 + 2 * length out.old ≤ length line.old) }
    ensures line_after { line.new ≡ over (head_line head.now text.now) line.old }
    ensures out_after { out.new ≡ head_buffer head.now text.now out.old }
{
    let lent = number_at(head, 2);
    let end = batch_record::record_line(line, head[0], head[1], text, &mut out[0..lent]);
    output.write_all(&line[0..end])
}

// One record: its head is read, then its text, and its line is printed. Whether there may be another. Where a read or a write failed, the line was made
// as it is on Ok, or none was.
fn record<R: Read, W: Write>(
    input: &mut R,
    output: &mut W,
    line: &mut [u8],
    head: &mut [u8; 10],
    text: &mut [u8],
    out: &mut [u8],
) -> io::Result<bool>
    requires { 192 + 2 * length out.old ≤ length line.old }
    ensures recorded { IfOk result (λ more. Recorded more head.new text.new line.old line.new) }
    ensures lent { IfOk result (λ more. Lent more head.new text.new out.old out.new) }
    ensures err { OnErr result (
        (Recorded false head.new text.new line.old line.new × Lent false head.new text.new out.old out.new)
        ⊎ (Recorded true head.new text.new line.old line.new × Lent true head.new text.new out.old out.new)) }
{
    let got = reader::read_full(input, head)?;
    if got == 0 {
        return Ok(false);
    }
    if got < 10 {
        return bad_record(output);
    }
    let lent = number_at(head, 2);
    let n = number_at(head, 6);
    if out.len() < lent {
        return bad_record(output);
    }
    if text.len() < n {
        return bad_record(output);
    }
    let read = reader::read_full(input, &mut text[0..n])?;
    if read < n {
        return bad_record(output);
    }
    print_record(output, line, head, &text[0..n], out)?;
    Ok(true)
}

fn main(rt: HostRuntime) -> io::Result<()> {
    let mut line = [0u8; 131456];
    let mut head = [0u8; 10];
    let mut text = [0u8; 65600];
    let mut out = [0u8; 65600];
    let mut input = rt.stdin();
    let mut output = rt.stdout();
    for _ in 0..u64::MAX {
        if !record(
            &mut input,
            &mut output,
            &mut line,
            &mut head,
            &mut text,
            &mut out,
        )? {
            break;
        }
    }
    Ok(())
}
