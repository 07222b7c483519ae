// The output's line, written to the front of `out`.
ghost use Rattle.std.specs.Prelude.{[], ◌≤◌, ◌<◌, ◌/◌, length};
ghost use Rattle.grammar.specs.Grammar.{max_data_digits};
ghost use Rattle.lines.specs.Answer.{line_of, Wrote};

use crate::MAX_OUTPUT;

// A number other than 0: no digits follow it. `write!` would not say how many bytes it wrote, nor that it cannot fail.
pub fn refusal(number: u8, out: &mut [u8; MAX_OUTPUT]) -> usize
    requires { (0 < number) × (number < 100) }
    ensures { Wrote (line_of number []) out.old result out.new }
{
    if number <= 9 {
        out[..2].copy_from_slice(&[b'0' + number, b'\n']);
        return 2;
    }
    out[..3].copy_from_slice(&[b'0' + number / 10, b'0' + number % 10, b'\n']);
    3
}

// 0, and the bytes in digits.
pub fn success(bytes: &[u8], out: &mut [u8; MAX_OUTPUT]) -> usize
    requires { length bytes.now ≤ max_data_digits / 2 }
    ensures { Wrote (line_of 0 bytes.now) out.old result out.new }
{
    out[..2].copy_from_slice(b"0 ");
    digits::encode(bytes, out, 2);
    let end = 2 + bytes.len() * 2;
    out[end] = b'\n';
    end + 1
}
