// The four lines.
ghost use Rattle.std.specs.Prelude.{◌≡◌, option_map, IfSome};
ghost use Rattle.digits.specs.Texts.{cut_in};
ghost use Rattle.grammar.specs.Grammar.{request};
ghost use Rattle.grammar.specs.Answers.{digits_line, request_in, Fits, Placed};

use digits::{cut, digits_fit};
use header::{Header, first_line};
use rules::{Direction, Mode};

// The most digits of the key's line, and of the IV's.
pub const MAX_KEY_DIGITS: usize = 128;

// The most digits of the data's line.
pub const MAX_DATA_DIGITS: usize = 8192;

// The first line's words, and the digits of each other line.
#[derive(Clone, Copy, PartialEq, Eq, Debug)]
pub struct Request<'a> {
    pub mode: Mode,
    pub n: usize,
    pub direction: Direction,
    pub key: &'a [u8],
    pub iv: &'a [u8],
    pub data: &'a [u8],
}

// The line that a text begins with, as digits: lower-case hexadecimal, an even count, at most `limit`; and what follows
// the line.
#[tactic(auto, unfolding(crate::specs::Answers::digits_line))]
fn digits_line(s: &[u8], limit: usize) -> Option<(&[u8], &[u8])>
    ensures { option_map cut_in result ≡ digits_line limit s.now }
{
    let (line, rest) = cut(s, b'\n')?;
    digits_fit(line, limit).then_some((line, rest))
}

#[tactic(auto, using(crate::proofs::LineLaws::read), unfolding(crate::specs::Grammar::request, crate::specs::Grammar::behind_first))]
pub fn parse(input: &[u8]) -> Option<Request<'_>>
    ensures form { option_map request_in result ≡ request input.now }
    ensures fits { IfSome result Fits }
    ensures places { IfSome result (Placed input.now) }
{
    let (line, rest) = cut(input, b'\n')?;
    let Header { mode, n, direction } = first_line(line)?;
    let (key, rest) = digits_line(rest, MAX_KEY_DIGITS)?;
    let (iv, rest) = digits_line(rest, MAX_KEY_DIGITS)?;
    let (data, rest) = digits_line(rest, MAX_DATA_DIGITS)?;
    if !rest.is_empty() {
        return None;
    }
    Some(Request {
        mode,
        n,
        direction,
        key,
        iv,
        data,
    })
}
