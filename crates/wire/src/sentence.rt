// A sentence: its checksum, and the writer.
ghost use Rattle.std.specs.Prelude.{◌≡◌, ◌<◌, ◌≤◌, length};
ghost use Rattle.std.specs.List.{prefix_len};
ghost use Rattle.wire.specs.Sentences.{is_body, checksum, hex_digit};
ghost use Rattle.wire.specs.Writes.{sentence_written};

use crate::laying::Parts;
use crate::refusal::Refusal;

fn is_body(b: u8) -> bool
    ensures { result ≡ is_body b }
{
    matches!(b, b' '..=b'~') && !matches!(b, b'$' | b'*')
}

// How many body bytes stand at the front.
pub fn body_run(bytes: &[u8]) -> usize
    ensures run { result ≡ prefix_len is_body bytes.now }
    ensures within { result ≤ length bytes.now }
{
    bytes.iter().take_while(|b| is_body(**b)).count()
}

// The exclusive or of the bytes.
pub fn checksum_of(body: &[u8]) -> u8
    ensures { result ≡ checksum body.now }
{
    body.iter().fold(0, |all, b| all ^ *b)
}

// The digit of a number below 16, in capitals: `char::from_digit` gives small letters.
pub fn hex_digit(n: u8) -> u8
    requires { n < 16 }
    ensures { result ≡ hex_digit n }
{
    if n < 10 { b'0' + n } else { b'A' - 10 + n }
}

// Writes the sentence to the start of the caller's `out` and gives its length.
pub fn write_sentence(body: &[u8], out: &mut [u8]) -> Result<usize, Refusal>
    ensures { (result, out.new) ≡ sentence_written body.now out.old }
{
    let len = body.len();
    if len > 76 || body_run(body) != len {
        return Err(Refusal::Body);
    }
    let sum = checksum_of(body);
    let form = Parts {
        head: b"$",
        middle: body,
        tail: &[b'*', hex_digit(sum / 16), hex_digit(sum % 16), b'\r', b'\n'],
    };
    form.write(out)
}
