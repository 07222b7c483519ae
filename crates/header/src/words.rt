// The words of the first line: a mode, n and a direction.
ghost use Rattle.std.specs.Prelude.{◌≡◌};
ghost use Rattle.header.specs.Header.{mode_of, length_of, direction_of};

use rules::{Direction, Mode};

#[tactic(auto, using(crate::proofs::WordLaws::spelled), unfolding(crate::specs::Header::mode_of))]
pub fn mode_word(word: &[u8]) -> Option<Mode>
    ensures { result ≡ mode_of word.now }
{
    match word {
        b"ECB" => Some(Mode::Ecb),
        b"CBC" => Some(Mode::Cbc),
        b"CFB" => Some(Mode::Cfb),
        b"OFB" => Some(Mode::Ofb),
        b"CTR" => Some(Mode::Ctr),
        _ => None,
    }
}

#[tactic(auto, using(crate::proofs::WordLaws::spelled), unfolding(crate::specs::Header::direction_of))]
pub fn direction_word(word: &[u8]) -> Option<Direction>
    ensures { result ≡ direction_of word.now }
{
    match word {
        b"E" => Some(Direction::Encrypt),
        b"D" => Some(Direction::Decrypt),
        _ => None,
    }
}

// One to three decimal digits.
#[tactic(auto, using(crate::proofs::WordLaws::counted), unfolding(crate::specs::Header::length_of))]
pub fn number(word: &[u8]) -> Option<usize>
    ensures { result ≡ length_of word.now }
{
    if word.is_empty() || word.len() > 3 {
        return None;
    }
    let mut n = 0;
    for b in word {
        if !b.is_ascii_digit() {
            return None;
        }
        n = n * 10 + usize::from(*b - b'0');
    }
    Some(n)
}
