// The text program on slices: from the whole input to the whole output.
#![tactic(auto)]

mod print;

ghost use Rattle.std.specs.Prelude.{◌≤◌, length};
ghost use Rattle.modes.specs.Sessions.{OpenedBy};
ghost use Rattle.digits.specs.Texts.{hex_bytes};
ghost use Rattle.grammar.specs.Grammar.{max_key_digits, max_data_digits};
ghost use Rattle.lines.specs.Answer.{fed_line, answer_bytes, Wrote};

use grammar::{MAX_DATA_DIGITS, MAX_KEY_DIGITS, Request};
use modes::{Opened, Session};
use questions::Refusal;
use rules::{Direction, Mode};

// The longest output: '0', a space, the digits, a line feed.
pub const MAX_OUTPUT: usize = 3 + MAX_DATA_DIGITS;

// The longest input of the form: its first line has 10 bytes, the others have their digits and a line feed.
pub const MAX_INPUT: usize = 10 + 2 * (MAX_KEY_DIGITS + 1) + MAX_DATA_DIGITS + 1;

// Opens under a key and an IV in digits. There is no heap: an array for the longest of them.
fn open_with(mode: Mode, n: usize, direction: Direction, key: &[u8], iv: &[u8]) -> Opened
    requires { (length key.now ≤ max_key_digits) × (length iv.now ≤ max_key_digits) }
    ensures { OpenedBy mode direction n 128 (hex_bytes key.now) (hex_bytes iv.now) result }
{
    let mut key_bytes = [0u8; MAX_KEY_DIGITS / 2];
    let mut iv_bytes = [0u8; MAX_KEY_DIGITS / 2];
    digits::decode(key, &mut key_bytes);
    digits::decode(iv, &mut iv_bytes);
    Session::open(
        mode,
        direction,
        n,
        &key_bytes[..key.len() / 2],
        &iv_bytes[..iv.len() / 2],
    )
}

// Feeds the bytes of the digits, and writes the line. Arrays again, for the longest data.
fn feed_all(session: Session, digits: &[u8], out: &mut [u8; MAX_OUTPUT]) -> usize
    requires { length digits.now ≤ max_data_digits }
    ensures { Wrote (fed_line session (hex_bytes digits.now)) out.old result out.new }
{
    let mut data = [0u8; MAX_DATA_DIGITS / 2];
    let mut text = [0u8; MAX_DATA_DIGITS / 2];
    digits::decode(digits, &mut data);
    let len = digits.len() / 2;
    let fed = session.feed(&data[..len], len * 8, &mut text[..len], 0);
    let number = fed.number;
    if number != 0 {
        return print::refusal(number, out);
    }
    print::success(&text[..len], out)
}

// The first r bytes of `out` are the output; those past them keep their values.
pub fn answer(input: &[u8], out: &mut [u8; MAX_OUTPUT]) -> usize
    ensures { Wrote (answer_bytes input.now) out.old result out.new }
{
    let Some(
        Request {
            mode,
            n,
            direction,
            key,
            iv,
            data,
        },
    ) = grammar::parse(input)
    else {
        return print::refusal(Refusal::NotFormed.into(), out);
    };
    let opened = open_with(mode, n, direction, key, iv);
    let opening = opened.number;
    if opening != 0 {
        return print::refusal(opening, out);
    }
    feed_all(opened.session, data, out)
}
