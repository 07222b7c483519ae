// Whole texts: padding, and messages with ciphertext stealing.
use crate::answered::answered;
use crate::output::Output;
use crate::state::State;
use script::{Hex, MAX_BYTES, Space, Words};
use std::io;
use std::io::Write;

impl State {
    // pad BITS OUTLEN PLACE FILL INPUT
    pub fn pad(
        &mut self,
        mut words: Words<'_>,
        space: &mut Space<'_>,
        room: &mut [u8; MAX_BYTES],
    ) -> Option<io::Result<()>> {
        let bits = words.number()?;
        let output = Output::read(&mut words)?;
        let input = words.text(space)?;
        words.end()?;
        let out = output.lent(room);
        let (number, length) = answered(padding::pad(input, bits, out, output.place), 0);
        Some(writeln!(self.answers, "{} {} {}", number, length, Hex(out)))
    }

    // unpad BITS INPUT
    pub fn unpad(&mut self, mut words: Words<'_>, space: &mut Space<'_>) -> Option<io::Result<()>> {
        let bits = words.number()?;
        let input = words.text(space)?;
        words.end()?;
        let (number, length) = answered(padding::unpad(input, bits), 0);
        Some(writeln!(self.answers, "{number} {length}"))
    }

    // steal E|D KEY IV BITS OUTLEN PLACE FILL INPUT
    pub fn steal(
        &mut self,
        mut words: Words<'_>,
        space: &mut Space<'_>,
        room: &mut [u8; MAX_BYTES],
    ) -> Option<io::Result<()>> {
        let direction = words.direction()?;
        let key = words.bytes(space)?;
        let iv = words.bytes(space)?;
        let bits = words.number()?;
        let output = Output::read(&mut words)?;
        let input = words.text(space)?;
        words.end()?;
        let out = output.lent(room);
        let answer = stealing::process(direction, key, iv, input, bits, out, output.place);
        Some(writeln!(self.answers, "{} {}", questions::number(answer), Hex(out)))
    }
}
