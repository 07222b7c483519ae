// The state: byte 4c + r of a block stands in row r, column c.
ghost use Rattle.std.specs.Prelude.{◌≡◌};
ghost use Rattle.steps.specs.State.{from_block, to_block};

use std::array;

pub fn load(b: [u8; 16]) -> [[u8; 4]; 4]
    ensures { result ≡ from_block b }
{
    [
        [b[0], b[4], b[8], b[12]],
        [b[1], b[5], b[9], b[13]],
        [b[2], b[6], b[10], b[14]],
        [b[3], b[7], b[11], b[15]],
    ]
}

pub fn store(s: [[u8; 4]; 4]) -> [u8; 16]
    ensures { result ≡ to_block s }
{
    array::from_fn(|i| s[i % 4][i / 4])
}
