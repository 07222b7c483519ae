// A line's words, separated by single spaces. Between two spaces in a row is an empty word, which is of no kind.
ghost use Rattle.std.specs.Prelude.{◌≤◌, length, IfSome};

use header::{direction_word, mode_word};
use rules::{Direction, Mode};

// The bytes of a text and of an output: 64 more than those of the largest feed, so that a list can go past it.
pub const MAX_BYTES: usize = 65600;

// The longest line: two digits for each byte of a text, and the other words.
pub const MAX_LINE: usize = 2 * MAX_BYTES + 1920;

// The words from the next one on; none where the line has ended. Each function below but the last takes the next word,
// and answers none where there is none or it is of another kind.
#[derive(Clone, Copy)]
pub struct Words<'a> {
    rest: Option<&'a [u8]>,
}

// Where the bytes that words spell are put: half of the longest line holds those of any line.
#[derive(Drop)]
pub struct Space<'a>(pub &'a mut [u8]);

impl<'a> Words<'a> {
    pub fn new(line: &'a [u8]) -> Words<'a> {
        Words { rest: Some(line) }
    }

    pub fn word(&mut self) -> Option<&'a [u8]> {
        let rest = self.rest?;
        match digits::cut(rest, b' ') {
            Some((word, behind)) => {
                self.rest = Some(behind);
                Some(word)
            }
            None => {
                self.rest = None;
                Some(rest)
            }
        }
    }

    // ECB, CBC, CFB, OFB or CTR.
    pub fn mode(&mut self) -> Option<Mode> {
        mode_word(self.word()?)
    }

    // E or D.
    pub fn direction(&mut self) -> Option<Direction> {
        direction_word(self.word()?)
    }

    // A decimal number that 64 bits hold: one or more digits, leading zeros among them.
    pub fn number(&mut self) -> Option<usize> {
        let word = self.word()?;
        if word.is_empty() {
            return None;
        }
        word.iter().try_fold(0usize, |number, b| {
            let digit = char::from(*b).to_digit(10)?;
            number.checked_mul(10)?.checked_add(digit as usize)
        })
    }

    // A number of bytes, at most `MAX_BYTES`.
    pub fn size(&mut self) -> Option<usize>
        ensures { IfSome result (λ size. size ≤ MAX_BYTES) }
    {
        self.number().filter(|size| *size <= MAX_BYTES)
    }

    // The digits of bytes, two to a byte, or `-` for none.
    fn digits(&mut self) -> Option<&'a [u8]> {
        let word = self.word()?;
        if word == b"-".as_slice() {
            return Some(&[]);
        }
        if word.is_empty() || word.len() % 2 != 0 || !digits::all_digits(word) {
            return None;
        }
        Some(word)
    }

    pub fn bytes<'s>(&mut self, space: &mut Space<'s>) -> Option<&'s [u8]> {
        let digits = self.digits()?;
        let bytes = space.0.split_off_mut(..digits.len() / 2)?;
        digits::decode(digits, bytes);
        Some(bytes)
    }

    // Bytes, at most `MAX_BYTES`.
    pub fn text<'s>(&mut self, space: &mut Space<'s>) -> Option<&'s [u8]>
        ensures { IfSome result (λ text. length text.now ≤ MAX_BYTES) }
    {
        self.bytes(space).filter(|text| text.len() <= MAX_BYTES)
    }

    pub fn byte(&mut self) -> Option<u8> {
        Some(self.array::<1>()?[0])
    }

    // 16 bytes.
    pub fn block(&mut self) -> Option<[u8; 16]> {
        self.array()
    }

    // N bytes.
    fn array<const N: usize>(&mut self) -> Option<[u8; N]> {
        let digits = self.digits()?;
        if digits.len() / 2 != N {
            return None;
        }
        let mut bytes = [0; N];
        digits::decode(digits, &mut bytes);
        Some(bytes)
    }

    // Has the line no further word?
    pub fn end(&self) -> Option<()> {
        match self.rest {
            Some(_) => None,
            None => Some(()),
        }
    }
}
