// Bits written into bytes that are there already.
ghost use Rattle.std.specs.Prelude.{◌≡◌, ◌∷◌, ◌++◌, ◌+◌, ◌-◌, ◌*◌, ◌/◌, ◌%◌, ◌^◌, ◌≤◌, ◌<◌, length, get_or, take, drop};
ghost use Rattle.std.proofs.Math.Seq.{paste};
ghost use Rattle.bits.specs.Texts.{bits, pack_to, put_bits};

use crate::read::byte_at;
use crate::shift::{first_bits, two_bytes};

// Writes the segment's first n bits from bit `at` on; the spare bits of the last byte become 0. A whole block at a
// byte's place is copied, as in `read`.
pub fn put_bits(out: &mut [u8], at: usize, segment: [u8; 16], n: usize)
    requires { (n ≤ 128) × (at + n ≤ length out.old * 8) }
    ensures { out.new ≡ put_bits out.old at (take n (bits segment)) }
{
    let first = at / 8;
    let r = at % 8;
    if n == 128 && r == 0 {
        out[first..first + 16].copy_from_slice(&segment);
        return;
    }
    let end = r + n;
    let whole = end / 8;
    let high = put_bytes(out, first, r, segment, whole);
    let used = end % 8;
    if used != 0 {
        let byte = two_bytes(high, byte_at(&segment, whole), 8 - r);
        out[first + whole] = first_bits(byte, used);
    }
}

// Whole bytes from `first` on: the first r bits there stay; the segment follows. Gives the byte in which the next one
// would begin.
fn put_bytes(out: &mut [u8], first: usize, r: usize, segment: [u8; 16], count: usize) -> u8
    requires { (r < 8) × (count ≤ 16) × (first + count ≤ length out.old) }
    ensures written { out.new ≡ paste out.old first (pack_to count (take r (bits (drop first out.old)) ++ bits segment)) count }
    ensures high { result ≡ get_or (get_or out.old first 0 / 2 ^ (8 - r) ∷ segment) count 0 }
{
    let mut high = two_bytes(0, byte_at(out, first), r);
    for (i, low) in segment[..count].iter().enumerate() {
        out[first + i] = two_bytes(high, *low, 8 - r);
        high = *low;
    }
    high
}
