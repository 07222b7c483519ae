// One block of a CBC archive.
use crate::output::Output;
use crate::state::State;
use script::{Hex, MAX_BYTES, Space, Words};
use std::io;
use std::io::Write;

impl State {
    // neighbour IV TEXT J
    pub fn neighbour(
        &mut self,
        mut words: Words<'_>,
        space: &mut Space<'_>,
    ) -> Option<io::Result<()>> {
        let iv = words.bytes(space)?;
        let text = words.text(space)?;
        let j = words.number()?;
        words.end()?;
        let part = inspect::neighbour(iv, text, j);
        Some(writeln!(self.answers, "{}", Hex(part)))
    }

    // block KEY IV TEXT J OUTLEN PLACE FILL
    pub fn block(
        &mut self,
        mut words: Words<'_>,
        space: &mut Space<'_>,
        room: &mut [u8; MAX_BYTES],
    ) -> Option<io::Result<()>> {
        let key = words.bytes(space)?;
        let iv = words.bytes(space)?;
        let text = words.text(space)?;
        let j = words.number()?;
        let output = Output::read(&mut words)?;
        words.end()?;
        let out = output.lent(room);
        let answer = inspect::decrypt_block(key, iv, text, j, out, output.place);
        Some(writeln!(self.answers, "{} {}", questions::number(answer), Hex(out)))
    }
}
