// The memory that the lines share.
use arrayvec::ArrayVec;
use script::{MAX_BYTES, MAX_LINE};
use std::io;
use std::io::Write;

// A byte more than the longest line.
const LINE: usize = MAX_LINE + 1;

// The line that is gathered, the bytes that its words spell, and the output that its call is lent.
#[derive(Drop)]
pub struct Room {
    pub line: ArrayVec<u8, LINE>,
    pub space: [u8; MAX_LINE / 2],
    pub out: [u8; MAX_BYTES],
}

impl Room {
    pub fn new() -> Room {
        Room {
            line: ArrayVec::new(),
            space: [0; MAX_LINE / 2],
            out: [0; MAX_BYTES],
        }
    }

    // Adds to the line. One that is too long stays full.
    pub fn gather(&mut self, piece: &[u8]) -> io::Result<()> {
        self.line.write(piece)?;
        Ok(())
    }
}
