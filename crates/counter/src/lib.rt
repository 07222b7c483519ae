// The counter of CTR: a block whose lowest m bits count.
#![tactic(auto)]

ghost use Rattle.std.specs.Prelude.{◌≡◌, ◌<◌};
ghost use Rattle.bits.specs.Counter.{plus_one, increment};

// Adds 1 to the lowest m bits; the others stay. The last byte takes it unless that is ff, or does not count whole.
pub fn increment_block(block: [u8; 16], m: usize) -> [u8; 16]
    ensures { result ≡ increment m block }
{
    let mut out = block;
    if m > 7 && out[15] != u8::MAX {
        out[15] += 1;
        return out;
    }
    increment_bytes(block, m)
}

// The same in every case. A byte that overflows becomes 0, and the byte before it is counted up too; the first byte
// that is not ff ends that. Below `end` no byte counts whole: the one before it counts with the bits that are left, and
// drops its overflow.
fn increment_bytes(block: [u8; 16], m: usize) -> [u8; 16]
    ensures { result ≡ increment m block }
{
    let mut out = block;
    let end = 16usize.saturating_sub(m / 8);
    for i in (end..16).rev() {
        if out[i] != u8::MAX {
            out[i] += 1;
            return out;
        }
        out[i] = 0;
    }
    if end > 0 {
        out[end - 1] = plus_one(out[end - 1], m % 8);
    }
    out
}

// 1 more in the lowest k bits of a byte, modulo 2^k.
fn plus_one(byte: u8, k: usize) -> u8
    requires { k < 8 }
    ensures { result ≡ plus_one k byte }
{
    let span = 1u8 << k;
    byte / span * span + (byte % span + 1) % span
}
