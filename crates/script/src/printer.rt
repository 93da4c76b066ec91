// Strings in quotes, written as `reader` reads them.
ghost use Rattle.std.specs.Prelude.{◌≡◌, ◌∷◌, [], ◌<◌, false, IsTrue, Some};
ghost use Rattle.std.specs.Str.{IsAscii};
ghost use Rattle.std.specs.Fmt.{WritesOnOk};
ghost use Rattle.script.specs.Print.{hex_code, escaped, spelled, quoted};

use std::fmt;
use std::fmt::Display;

const HEX_CODES: &[u8; 16] = b"0123456789abcdef";

// Whether a byte stands within quotes as itself.
fn is_plain(byte: u8) -> bool
    ensures plain { IsTrue result → spelled byte ≡ byte ∷ [] }
    ensures ascii { IsTrue result → byte < 128 }
    ensures other { result ≡ false → spelled byte ≡ escaped byte }
{
    matches!(byte, b' '..=b'~') && byte != b'"' && byte != b'\\'
}

fn hex_code(digit: u8) -> u8
    requires { digit < 16 }
    ensures value { result ≡ hex_code digit }
    ensures ascii { result < 128 }
{
    HEX_CODES[usize::from(digit)]
}

// Writes ASCII, which is not tested again. No call is made for no bytes, as between two escapes.
fn write_ascii<W: fmt::Write>(f: &mut fmt::Formatter<W>, bytes: &[u8]) -> fmt::Result
    requires { IsAscii bytes.now }
    ensures { WritesOnOk W.write_str_gives f.old result bytes.now f.new }
{
    if bytes.is_empty() {
        return Ok(());
    }
    f.write_str(unsafe { str::from_utf8_unchecked(bytes) })
}

// A byte within quotes.
#[derive(Clone, Copy)]
struct Spelled(u8);

impl fmt::Display for Spelled {
    ghost output = { λ b. Some (spelled b.0) };

    fn fmt<W: fmt::Write>(&self, f: &mut fmt::Formatter<W>) -> fmt::Result {
        let byte = self.0;
        if is_plain(byte) {
            return f.write_char(char::from(byte));
        }
        let text = [b'\\', b'x', hex_code(byte / 16), hex_code(byte % 16)];
        write_ascii(f, &text)
    }
}

// A string that is ASCII whatever its bytes are, and that reads as those bytes.
#[derive(Clone, Copy)]
pub struct Quoted<'a>(pub &'a [u8]);

impl fmt::Display for Quoted<'_> {
    ghost output = { λ q. Some (quoted q.0.now) };

    // A run of bytes that stand as themselves is written by one call, since a call costs more than a byte.
    fn fmt<W: fmt::Write>(&self, f: &mut fmt::Formatter<W>) -> fmt::Result {
        let bytes = self.0;
        let mut start = 0;
        f.write_str("\"")?;
        for (end, byte) in bytes.iter().enumerate() {
            let byte = *byte;
            if is_plain(byte) {
                continue;
            }
            write_ascii(f, &bytes[start..end])?;
            Spelled(byte).fmt(f)?;
            start = end + 1;
        }
        write_ascii(f, &bytes[start..])?;
        f.write_str("\"")
    }
}
