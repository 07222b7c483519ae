// Bytes at a bit offset: each is made of two neighbours.
ghost use Rattle.std.specs.Prelude.{◌≡◌, ◌+◌, ◌-◌, ◌*◌, ◌/◌, ◌%◌, ◌^◌, ◌≤◌};

// The byte that starts r bits into `high`, which `low` follows.
pub fn two_bytes(high: u8, low: u8, r: usize) -> u8
    requires { r ≤ 8 }
    ensures { result ≡ (high * 256 + low) / 2 ^ (8 - r) % 256 }
{
    let pair = u32::from(high) * 256 + u32::from(low);
    ((pair >> (8 - r)) % 256) as u8
}

// The first k bits of a byte, with 0 bits after them.
pub fn first_bits(b: u8, k: usize) -> u8
    requires { k ≤ 8 }
    ensures { result ≡ b / 2 ^ (8 - k) * 2 ^ (8 - k) }
{
    let spare = 8 - k;
    ((u16::from(b) >> spare) << spare) as u8
}
