// A register of 16 bytes that is shifted.
ghost use Rattle.std.specs.Prelude.{◌≡◌, ◌++◌, take, drop};
ghost use Rattle.bits.specs.Texts.{bits, pack_to};

use crate::shift::two_bytes;

// The register's first n bits leave, and the segment's first n bits enter at the end.
pub fn shift_in(register: [u8; 16], segment: [u8; 16], n: usize) -> [u8; 16]
    ensures { result ≡ pack_to 16 (drop n (bits register) ++ take n (bits segment)) }
{
    if n >= 128 {
        return segment;
    }
    let both = join(register, segment);
    let first = n / 8;
    let r = n % 8;
    let mut out = [0u8; 16];
    // By index: of array::from_fn LLVM makes half as many instructions more.
    for i in 0..16 {
        out[i] = two_bytes(both[first + i], both[first + i + 1], r);
    }
    out
}

fn join(a: [u8; 16], b: [u8; 16]) -> [u8; 32]
    ensures { result ≡ a ++ b }
{
    let mut both = [0u8; 32];
    both[..16].copy_from_slice(&a);
    both[16..].copy_from_slice(&b);
    both
}
