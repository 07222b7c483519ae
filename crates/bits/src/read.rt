// Bits read from a slice. Bits past its end are 0.
ghost use Rattle.std.specs.Prelude.{◌≡◌, ◌+◌, ◌*◌, ◌≤◌, ◌<◌, get_or, take, drop};
ghost use Rattle.bits.specs.Texts.{bits, pack_to};

use crate::shift::{first_bits, two_bytes};
use std::array;

// Byte k, or 0 past the end.
pub fn byte_at(s: &[u8], k: usize) -> u8
    ensures { result ≡ get_or s.now k 0 }
{
    s.get(k).copied().unwrap_or(0)
}

// The n bits from bit `offset` on, at most 128, from the left of the result on.
pub fn window(s: &[u8], offset: usize, n: usize) -> [u8; 16]
    ensures { result ≡ pack_to 16 (take n (drop offset (bits s.now))) }
{
    if n < 128 {
        part_of_block(s, offset, n)
    } else {
        whole_block(s, offset)
    }
}

fn part_of_block(s: &[u8], offset: usize, n: usize) -> [u8; 16]
    requires { n < 128 }
    ensures { result ≡ pack_to 16 (take n (drop offset (bits s.now))) }
{
    let mut out = bytes_from(s, offset, n.div_ceil(8));
    let used = n % 8;
    if used != 0 {
        let last = n / 8;
        out[last] = first_bits(out[last], used);
    }
    out
}

// A block at a byte's place, as in all modes but CFB, is copied, which is some ten times as fast.
fn whole_block(s: &[u8], offset: usize) -> [u8; 16]
    ensures { result ≡ pack_to 16 (drop offset (bits s.now)) }
{
    let first = offset / 8;
    if offset % 8 == 0 && first + 16 <= s.len() {
        return array::from_fn(|i| s[first + i]);
    }
    bytes_from(s, offset, 16)
}

// `count` whole bytes from bit `offset` on, then bytes 0.
fn bytes_from(s: &[u8], offset: usize, count: usize) -> [u8; 16]
    requires { count ≤ 16 }
    ensures { result ≡ pack_to 16 (take (count * 8) (drop offset (bits s.now))) }
{
    let mut out = [0u8; 16];
    let first = offset / 8;
    let r = offset % 8;
    let mut high = byte_at(s, first);
    for i in 0..count {
        let low = byte_at(s, first + i + 1);
        out[i] = two_bytes(high, low, r);
        high = low;
    }
    out
}
