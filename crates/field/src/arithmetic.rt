// Doubling and the product of two bytes, modulo the polynomial 11b.
ghost use Rattle.std.specs.Prelude.{◌≡◌};
ghost use Rattle.field.specs.Field as Field;

// A byte times x.
pub fn double(b: u8) -> u8
    ensures { result ≡ Field.double b }
{
    (b / 128 % 2 * 0x1b) ^ (b % 128 * 2)
}

// Shift and add, a digit of c a turn, from the lowest.
pub fn product(c: u8, b: u8) -> u8
    ensures { result ≡ Field.product c b }
{
    let mut sum: u8 = 0;
    let mut digits = c;
    let mut term = b;
    for _ in 0..8u32 {
        sum ^= digits % 2 * term;
        digits /= 2;
        term = double(term);
    }
    sum
}
