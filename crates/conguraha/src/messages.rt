// Padding, whole messages with ciphertext stealing, and one block of a CBC ciphertext.
ghost use Rattle.std.specs.Prelude.{◌≡◌};
ghost use Rattle.rules.specs.declared.Direction.TheVariants.{Encrypt, Decrypt};
ghost use Rattle.padding.specs.Padding.{answered, PaddedBy, UnpaddedBy};
ghost use Rattle.stealing.specs.Calls.{StolenBy};
ghost use Rattle.single.specs.Single.{SingleBy};
ghost use Rattle.conguraha.specs.Answers.{padded_of, unpadded_of, NeighbourAt};

use questions::Refusal;
use rules::Direction;

// How many bits a padded text has, or a text before its padding; 0 where it is refused.
#[repr(C)]
#[derive(Clone, Copy)]
pub struct Length {
    pub bits: usize,
    pub number: usize,
}

impl From<Result<usize, Refusal>> for Length {
    ghost from_gives = { λ answer length. padded_of length ≡ answered answer };

    fn from(answer: Result<usize, Refusal>) -> Length {
        match answer {
            Ok(bits) => Length { bits, number: 0 },
            Err(refusal) => Length {
                bits: 0,
                number: u8::from(refusal).into(),
            },
        }
    }
}

// Writes the padded text from out[place] on.
#[unsafe(no_mangle)]
pub extern "C" fn conguraha1_pad(input: &[u8], bits: usize, out: &mut [u8], place: usize) -> Length
    ensures { PaddedBy input.now bits out.old place (padded_of result) out.new }
{
    padding::pad(input, bits, out, place).into()
}

#[unsafe(no_mangle)]
pub extern "C" fn conguraha1_unpad(input: &[u8], bits: usize) -> Length
    ensures { UnpaddedBy input.now bits (unpadded_of result) }
{
    padding::unpad(input, bits).into()
}

#[unsafe(no_mangle)]
pub extern "C" fn conguraha1_cts_encrypt(
    key: &[u8],
    iv: &[u8],
    input: &[u8],
    bits: usize,
    out: &mut [u8],
    place: usize,
) -> u8
    ensures { StolenBy Encrypt key.now iv.now input.now bits out.old place result out.new }
{
    let answer = stealing::process(Direction::Encrypt, key, iv, input, bits, out, place);
    questions::number(answer)
}

#[unsafe(no_mangle)]
pub extern "C" fn conguraha1_cts_decrypt(
    key: &[u8],
    iv: &[u8],
    input: &[u8],
    bits: usize,
    out: &mut [u8],
    place: usize,
) -> u8
    ensures { StolenBy Decrypt key.now iv.now input.now bits out.old place result out.new }
{
    let answer = stealing::process(Direction::Decrypt, key, iv, input, bits, out, place);
    questions::number(answer)
}

// Decrypts block j of the ciphertext `text` with its neighbour, and writes its 16 bytes from out[place] on.
#[unsafe(no_mangle)]
pub extern "C" fn conguraha1_cbc_block<'a>(
    key: &[u8],
    iv: &'a [u8],
    text: &'a [u8],
    j: usize,
    out: &mut [u8],
    place: usize,
) -> u8
    ensures { SingleBy key.now iv.now text.now j out.old place result out.new }
{
    questions::number(single::decrypt_block(key, iv, text, j, out, place))
}

// A part of what was handed over: `length` bytes from `offset` on, of the IV where `source` is 0, of the ciphertext
// where it is 1. Where it is refused all three are 0, and the part is empty.
#[repr(C)]
#[derive(Clone, Copy)]
pub struct Neighbour {
    pub offset: usize,
    pub length: usize,
    pub source: usize,
    pub number: usize,
}

// The neighbour of block j: the IV for j = 0, else block j - 1.
#[unsafe(no_mangle)]
pub extern "C" fn conguraha1_cbc_neighbour(iv: &[u8], text: &[u8], j: usize) -> Neighbour
    ensures { NeighbourAt iv.now text.now j result }
{
    if let Err(refusal) = single::ask_neighbour(iv, text, j) {
        return Neighbour {
            offset: 0,
            length: 0,
            source: 0,
            number: u8::from(refusal).into(),
        };
    }
    if j == 0 {
        return Neighbour {
            offset: 0,
            length: 16,
            source: 0,
            number: 0,
        };
    }
    let offset = (j - 1) * 16;
    Neighbour {
        offset,
        length: 16,
        source: 1,
        number: 0,
    }
}
