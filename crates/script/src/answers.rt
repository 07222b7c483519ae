// The text of the answers.
use arrayvec::ArrayVec;
use std::io;
use std::io::{Stdout, Write};

// Standard output behind a buffer: what is written is gathered in `text`, and goes out when a byte more comes than the
// text holds, or at `flush`.
#[derive(Drop)]
pub struct Answers {
    to: Stdout,
    text: ArrayVec<u8, 65536>,
}

impl Answers {
    pub fn new(to: Stdout) -> Answers {
        Answers {
            to,
            text: ArrayVec::new(),
        }
    }
}

impl Write for Answers {
    fn write(&mut self, bytes: &[u8]) -> io::Result<usize> {
        if self.text.is_full() && !bytes.is_empty() {
            self.flush()?;
        }
        self.text.write(bytes)
    }

    fn flush(&mut self) -> io::Result<()> {
        self.to.write_all(self.text.as_slice())?;
        self.text.clear();
        Ok(())
    }
}
