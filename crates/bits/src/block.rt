// Whole blocks by XOR.
ghost use Rattle.std.specs.Prelude.{◌≡◌};
ghost use Rattle.bits.specs.Xor.{xor_bytes};

use std::array;

pub fn xor_block(a: [u8; 16], b: [u8; 16]) -> [u8; 16]
    ensures { result ≡ xor_bytes a b }
{
    array::from_fn(|i| a[i] ^ b[i])
}
