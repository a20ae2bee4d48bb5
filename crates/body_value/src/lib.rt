// What a quoted body stands for, written to the front of a buffer.
#![tactic(auto)]

ghost use Rattle.std.specs.Prelude.{◌≤◌, ◌<◌, length};
ghost use Rattle.buffer.specs.Buffer.{Wrote};
ghost use Rattle.body.specs.Body.{body};

use escape::Allowed;

// What a quoted body stands for, up to its end, is written to the front of out.
pub fn write_value(out: &mut [u8], s: &[u8], k: Allowed) -> usize
    requires { (length s.now < 4294967296) × (length (body k s.now).value ≤ length out.old) }
    ensures { Wrote (body k s.now).value result out.old out.new }
{
    let end = s.len() - utf8::last_len(s);
    let mut i = 0;
    let mut at: usize = 0;
    // no `for`: a turn goes on by a length that it finds
    loop {
        if scan::byte_at(s, i) == b'\\' {
            let c = body::packed_at(s, i, end, k);
            if c == 0 {
                return at;
            }
            at += escape::put_value(&mut out[at..], escape_packed::packed_value(c));
            i += escape_packed::packed_len(c);
            continue;
        }
        let e = body_plain::plain_end(s, i, k);
        if e == i {
            return at;
        }
        at += buffer::put_bytes(&mut out[at..], &s[i..e]);
        i = e;
    }
}
