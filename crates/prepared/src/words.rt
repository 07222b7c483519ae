// A column of a round key, for decryption.
ghost use Rattle.std.specs.Prelude.{◌≡◌};
ghost use Rattle.columns.specs.Inner.Words.{word_bytes};
ghost use Rattle.prepared.specs.Inner.Parts.{unmixed};

// InvMixColumns of a column. Its matrix is 08 times the sum of all four bytes, 04 times that of the byte and the one
// across, 02 times that of the byte and the next, and the other three bytes.
pub fn unmix(x: u32) -> u32
    ensures { word_bytes result ≡ unmixed (word_bytes x) }
{
    let next = x.rotate_left(24);
    let across = x.rotate_left(16);
    let others = next ^ across ^ x.rotate_left(8);
    let eightfold = field::double_row(x ^ others);
    let fourfold = field::double_row(eightfold ^ x ^ across);
    field::double_row(fourfold ^ x ^ next) ^ others
}
