// Feeds, and what one will cost.
use crate::answered::answered;
use crate::output::Output;
use crate::sessions::Progress;
use crate::state::State;
use forecast::Cost;
use script::{Hex, MAX_BYTES, Space, Words};
use std::io;
use std::io::Write;

impl State {
    // feed BITS OUTLEN PLACE FILL INPUT
    pub fn feed(
        &mut self,
        mut words: Words<'_>,
        space: &mut Space<'_>,
        room: &mut [u8; MAX_BYTES],
    ) -> Option<io::Result<()>> {
        let bits = words.number()?;
        let output = Output::read(&mut words)?;
        let input = words.text(space)?;
        words.end()?;
        let out = output.lent(room);
        let fed = self.session.feed(input, bits, out, output.place);
        self.session = fed.session;
        Some(writeln!(
            self.answers,
            "{} {} {} {}",
            fed.number,
            Hex(out),
            Progress(&self.session),
            fed.runs
        ))
    }

    // forecast MODE N BITS
    pub fn forecast(&mut self, mut words: Words<'_>) -> Option<io::Result<()>> {
        let mode = words.mode()?;
        let n = words.number()?;
        let bits = words.number()?;
        words.end()?;
        let none = Cost { bytes: 0, runs: 0 };
        let (number, cost) = answered(forecast::forecast(mode, n, bits), none);
        Some(writeln!(self.answers, "{} {} {}", number, cost.bytes, cost.runs))
    }
}
