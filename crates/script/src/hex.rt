// Bytes as a list has them.
ghost use Rattle.std.specs.Prelude.{◌≡◌, ◌≤◌, length, Some};
ghost use Rattle.digits.specs.Texts.{hex_text};
ghost use Rattle.script.specs.Printed.{bytes_text};

use std::{fmt, str};

// In lower-case hexadecimal, and `-` for no bytes.
#[derive(Clone, Copy)]
pub struct Hex<'a>(pub &'a [u8]);

// Two digits for each byte of a part, written to `text`.
fn digits_of<'a>(part: &[u8], text: &'a mut [u8; 512]) -> &'a str
    requires { length part.now ≤ 256 }
    ensures { result.now ≡ hex_text part.now }
{
    digits::encode(part, text, 0);
    let Ok(shown) = str::from_utf8(&text[..2 * part.len()]) else {
        unreachable!();
    };
    shown
}

impl fmt::Display for Hex<'_> {
    ghost output = { λ hex. Some (bytes_text hex.0.now) };

    fn fmt<W: fmt::Write>(&self, f: &mut fmt::Formatter<W>) -> fmt::Result {
        if self.0.is_empty() {
            return f.write_str("-");
        }
        let mut text = [0; 512];
        for part in self.0.chunks(256) {
            f.write_str(digits_of(part, &mut text))?;
        }
        Ok(())
    }
}
