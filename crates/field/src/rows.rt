// Four bytes of a row as one number, first byte highest, so that a row is doubled at once.
ghost use Rattle.std.specs.Prelude.{◌≡◌, ◌*◌, map, get_or};
ghost use Rattle.field.specs.Field as Field;
ghost use Rattle.field.specs.Rows.{four};
ghost use Rattle.bits.specs.Counter.{number, number_bytes};

pub fn join_row(row: [u8; 4]) -> u32
    ensures { result ≡ number (four (λ i. get_or row i 0)) }
{
    u32::from_be_bytes(row)
}

pub fn split_row(x: u32) -> [u8; 4]
    ensures { result ≡ number_bytes 4 x }
{
    x.to_be_bytes()
}

// Each of the four bytes doubled: the bits that do not leave a byte shift up, and 1b is added to each byte whose
// highest bit left.
pub fn double_row(x: u32) -> u32
    ensures { result ≡ number (map Field.double (number_bytes 4 x)) }
{
    let high = x & 0x8080_8080;
    ((high >> 7) * 0x1b) ^ ((x ^ high) << 1)
}
