// A line's command, found by its name.
use crate::state::State;
use script::{MAX_BYTES, Space, Words};
use std::io;

impl State {
    // Runs the line and gathers its answer, with `space` for the bytes that words spell and `room` for the longest
    // output. As each of the commands below, it answers none, and nothing has changed, where the line is of no
    // command's form.
    pub fn run(
        &mut self,
        mut words: Words<'_>,
        space: &mut Space<'_>,
        room: &mut [u8; MAX_BYTES],
    ) -> Option<io::Result<()>> {
        match words.word()? {
            b"open" => self.open(words, space),
            b"open-counter" => self.open_counter(words, space),
            b"feed" => self.feed(words, space, room),
            b"session" => self.set(words, space),
            b"show" => self.show(words),
            b"units" => self.units(words),
            b"carry" => self.carry(words),
            b"keep" => self.keep(words),
            b"alike" => self.alike(words),
            b"forecast" => self.forecast(words),
            b"place" => self.place(words),
            b"pad" => self.pad(words, space, room),
            b"unpad" => self.unpad(words, space),
            b"neighbour" => self.neighbour(words, space),
            b"block" => self.block(words, space, room),
            b"steal" => self.steal(words, space, room),
            b"expand" => self.expand(words, space),
            b"encrypt" => self.encrypt(words, space),
            b"decrypt" => self.decrypt(words, space),
            _ => None,
        }
    }
}
