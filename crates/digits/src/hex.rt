// Lower-case hexadecimal, to bytes and back.
ghost use Rattle.std.specs.Prelude.{◌≡◌, ◌+◌, ◌*◌, ◌<◌, length, get_or, is_some, unwrap_or};
ghost use Rattle.digits.specs.Texts.{is_hex, all, value, digit, decoded_into, encoded_into, digits_fit};

// The value of a digit; None for any other byte.
#[tactic(auto, unfolding(crate::specs::Texts::value, crate::specs::Texts::is_hex, crate::specs::Texts::between))]
fn value(b: u8) -> Option<u8>
    ensures digit { is_some result ≡ is_hex b }
    ensures value { unwrap_or result 0 ≡ value b }
{
    match b {
        b'0'..=b'9' => Some(b - b'0'),
        b'a'..=b'f' => Some(b - b'a' + 10),
        _ => None,
    }
}

pub fn all_digits(s: &[u8]) -> bool
    ensures { result ≡ all is_hex s.now }
{
    s.iter().all(|b| value(*b).is_some())
}

// Is the word an even count of digits, at most `limit`?
pub fn digits_fit(word: &[u8], limit: usize) -> bool
    ensures { result ≡ digits_fit limit word.now }
{
    word.len() <= limit && word.len() % 2 == 0 && all_digits(word)
}

// The byte of the two digits at i.
fn pair(s: &[u8], i: usize) -> u8
    requires { i + 1 < length s.now }
    ensures { result ≡ value (get_or s.now i 0) * 16 + value (get_or s.now (i + 1) 0) }
{
    value(s[i]).unwrap_or(0) * 16 + value(s[i + 1]).unwrap_or(0)
}

// Writes the bytes of the digits to the front of out, two digits to a byte; nothing where there is no room for all.
pub fn decode(s: &[u8], out: &mut [u8])
    ensures { out.new ≡ decoded_into s.now out.old }
{
    let count = s.len() / 2;
    if out.len() < count {
        return;
    }
    for i in 0..count {
        out[i] = pair(s, i * 2);
    }
}

// The digit of a number below 16.
#[tactic(auto, unfolding(crate::specs::Texts::digit))]
fn digit(x: u8) -> u8
    requires { x < 16 }
    ensures { result ≡ digit x }
{
    if x <= 9 { b'0' + x } else { b'a' - 10 + x }
}

// Writes two digits for each byte, from out[at] on; nothing where there is no room for all.
pub fn encode(bytes: &[u8], out: &mut [u8], at: usize)
    ensures { out.new ≡ encoded_into bytes.now out.old at }
{
    if out.len() < at || (out.len() - at) / 2 < bytes.len() {
        return;
    }
    for (i, b) in bytes.iter().enumerate() {
        out[at + i * 2] = digit(*b / 16);
        out[at + i * 2 + 1] = digit(*b % 16);
    }
}
