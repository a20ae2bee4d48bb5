// The line that a record of the batch format comes to (docs/BATCH.md), and the line of the program `keybasket`. Lines are made here in a lent buffer; the
// programs print them.
#![tactic(auto)]

ghost use Rattle.std.specs.Prelude.{◌≡◌, ◌+◌, ◌*◌, ◌≤◌, length, take, replicate};
ghost use Rattle.err.specs.Numbers.{number_of};
ghost use Rattle.err.specs.Reading.{place_of};
ghost use Rattle.err.specs.Kinds.{kind_code};
ghost use Rattle.buffer.specs.Buffer.{Wrote};
ghost use Rattle.batch_line.specs.Lines.{Added};
ghost use Rattle.integer_value.specs.Value.{valued_of};
ghost use Rattle.keyed.specs.Keyed.{keyed_of, keyed_counts};
ghost use Rattle.literal.specs.Decodes as decodes;
ghost use Rattle.settle.specs.Settled.{formed, settle_at, settle_buffer, form_at};
ghost use Rattle.batch_record.specs.Records.{keyed_line, valued_line, written_piece, refused_line, decoding_line, settling_line, operation_line, operation_buffer, record_line, record_buffer};
ghost use Rattle.batch_record.specs.Program.{form_line, program_line};

use err::{Kind, Literal, ParseError};
use keyed::KeyedError;

// Every byte becomes 165.
fn fill(out: &mut [u8])
    ensures { (length out.new ≡ length out.old) × (out.new ≡ replicate (length out.old) 165) }
{
    out.fill(165);
}

// The line of an integer's value.
fn put_valued(line: &mut [u8], v: Result<u64, ParseError>) -> usize
    requires { 128 ≤ length line.old }
    ensures { Wrote (valued_line (valued_of v)) result line.old line.new × (result ≤ 107) }
{
    match v {
        Ok(n) => batch_line::put_ok(line, n),
        Err(error) => batch_line::put_refusal(line, error),
    }
}

// The line of a refusal, and whether the whole lent buffer is as it was.
fn put_refused(line: &mut [u8], error: ParseError, out: &[u8]) -> usize
    requires { 128 ≤ length line.old }
    ensures { Wrote (refused_line (number_of error.kind) (place_of error.span) out.now) result line.old line.new × (result ≤ 115) }
{
    let at = batch_line::put_refusal(line, error);
    batch_line::add_kept(line, at, out, 0)
}

// The first n bytes of a lent buffer, and whether those after them are as they were.
fn add_written(line: &mut [u8], at: usize, out: &[u8], n: usize) -> usize
    requires { (n ≤ length out.now) × (at + (10 + 2 * n) ≤ length line.old) }
    ensures { Added (written_piece n out.now) at result line.old line.new × (result ≤ at + (10 + 2 * n)) }
{
    let next = batch_line::add_hex(line, at, &out[..n]);
    batch_line::add_kept(line, next, out, n)
}

// The line of decoding by an entry code.
fn put_decoding(line: &mut [u8], code: u8, text: &[u8], out: &mut [u8]) -> usize
    requires { 128 + 2 * length out.old ≤ length line.old }
    ensures wrote { Wrote (decoding_line code text.now out.old) result line.old line.new × (result ≤ 115 + 2 * length out.old) }
    ensures out_after { out.new ≡ decodes.decode_buffer code text.now out.old }
{
    match literal::decode(u64::from(code), text, out) {
        Err(error) => put_refused(line, error, out),
        Ok(n) => {
            let at = batch_line::put_ok(line, n as u64);
            add_written(line, at, out, n)
        }
    }
}

// The line of settling.
fn put_settling(line: &mut [u8], text: &[u8], out: &mut [u8]) -> usize
    requires { 128 + 2 * length out.old ≤ length line.old }
    ensures wrote { Wrote (settling_line text.now out.old) result line.old line.new × (result ≤ 115 + 2 * length out.old) }
    ensures out_after { out.new ≡ settle_buffer text.now out.old }
{
    match settle::settle(text, out) {
        Err(error) => put_refused(line, error, out),
        Ok((kind, n)) => {
            let at = batch_line::put_kind(line, u64::from(kind.code()), n);
            add_written(line, at, out, n)
        }
    }
}

// The line of a reading by the keyed entry.
fn put_keyed(line: &mut [u8], found: Result<Literal, KeyedError>) -> usize
    requires { 192 ≤ length line.old }
    ensures { Wrote (keyed_line (keyed_of found) (keyed_counts found)) result line.old line.new × (result ≤ 170) }
{
    match found {
        Err(KeyedError::Added(kind)) => batch_line::put_added(line, kind),
        Err(KeyedError::Parse(error)) => batch_line::put_refusal(line, error),
        Ok(lit) => {
            let at = batch_line::put_literal(line, lit);
            batch_line::add_counts(line, at, Ok(lit))
        }
    }
}

// The line of an operation, by its letter.
#[tactic(auto, unfolding(crate::specs::Records::operation_line, crate::specs::Records::operation_buffer))]
fn put_operation(line: &mut [u8], letter: u8, code: u8, text: &[u8], out: &mut [u8]) -> usize
    requires { 192 + 2 * length out.old ≤ length line.old }
    ensures wrote { Wrote (operation_line letter code text.now out.old) result line.old line.new × (result ≤ 170 + 2 * length out.old) }
    ensures out_after { out.new ≡ operation_buffer letter code text.now out.old }
{
    match letter {
        b'R' => batch_line::put_reading(line, literal::read(u64::from(code), text)),
        b'V' => put_valued(line, literal::value(u64::from(code), text)),
        b'D' => put_decoding(line, code, text, out),
        b'S' => put_settling(line, text, out),
        b'I' => batch_line::put_ok(line, u64::from(literal::integer_from_suffix(text))),
        b'F' => batch_line::put_ok(line, u64::from(literal::float_from_suffix(text))),
        b'K' => put_keyed(line, keyed::read_keyed(text)),
        _ => batch_line::add(line, 0, b"bad operation"),
    }
}

// The line of a record, with its line feed. The buffer is as long as the record lends it.
pub fn record_line(line: &mut [u8], letter: u8, code: u8, text: &[u8], out: &mut [u8]) -> usize
    requires { 192 + 2 * length out.old ≤ length line.old }
    ensures wrote { Wrote (record_line letter code text.now (length out.old)) result line.old line.new }
    ensures out_after { out.new ≡ record_buffer letter code text.now (length out.old) }
{
    fill(out);
    let n = put_operation(line, letter, code, text, out);
    batch_line::add(line, n, b"\n")
}

// `ok`, the kind and the first n bytes of a buffer, which are the form.
fn put_formed(line: &mut [u8], kind: Kind, out: &[u8], n: usize) -> usize
    requires { (n ≤ length out.now) × (128 + n ≤ length line.old) }
    ensures { Wrote (form_line (formed (kind_code kind) n) (take n out.now)) result line.old line.new × (result ≤ 24 + n) }
{
    let at = batch_line::put_ok(line, u64::from(kind.code()));
    let next = batch_line::add(line, at, b" ");
    batch_line::add(line, next, &out[..n])
}

// The line of a text's settled form, or of its refusal.
fn put_form(line: &mut [u8], text: &[u8], out: &mut [u8]) -> usize
    requires { 128 + length out.old ≤ length line.old }
    ensures wrote { Wrote (form_line (settle_at text.now (length out.old)) (form_at text.now)) result line.old line.new × (result ≤ 107 + length out.old) }
    ensures out_after { out.new ≡ settle_buffer text.now out.old }
{
    match settle::settle(text, out) {
        Err(error) => batch_line::put_refusal(line, error),
        Ok((kind, n)) => put_formed(line, kind, out, n),
    }
}

// The line of the program `keybasket`, with its line feed.
pub fn program_line(line: &mut [u8], text: &[u8], out: &mut [u8]) -> usize
    requires { (length out.old ≡ 65536) × (65664 ≤ length line.old) }
    ensures wrote { Wrote (program_line text.now) result line.old line.new }
    ensures out_after { out.new ≡ settle_buffer text.now out.old }
{
    let end = put_form(line, text, out);
    batch_line::add(line, end, b"\n")
}
