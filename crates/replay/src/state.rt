// What stays from line to line.
use crate::room::Room;
use modes::Session;
use rules::{Direction, Mode};
use script::{Answers, MAX_LINE, Space, Words};
use std::io;
use std::io::{Stderr, Stdout, Write};

// `kept` is the session that `alike` compares with, and `ended` lines have ended. `errors` takes the numbers of bad
// lines.
#[derive(Drop)]
pub struct State {
    pub answers: Answers,
    pub session: Session,
    pub kept: Session,
    errors: Stderr,
    ended: u64,
}

impl State {
    // Both sessions are a refused opening's.
    pub fn new(to: Stdout, errors: Stderr) -> State {
        let session = Session::open(Mode::Ecb, Direction::Encrypt, 128, b"", b"").session;
        State {
            answers: Answers::new(to),
            session,
            kept: session,
            errors,
            ended: 0,
        }
    }

    // The gathered line has ended: runs it. Past 2^64 - 1 lines the count stays.
    pub fn end_line(&mut self, room: &mut Room) -> io::Result<()> {
        self.ended = self.ended.saturating_add(1);
        match room.line.as_slice() {
            [] | [b'#', ..] => Ok(()),
            line if line.len() > MAX_LINE => self.bad(),
            line => {
                let mut space = Space(&mut room.space);
                match self.run(Words::new(line), &mut space, &mut room.out) {
                    Some(answered) => answered,
                    None => self.bad(),
                }
            }
        }
    }

    // The answer to a line that is of no command's form, which is named on standard error.
    fn bad(&mut self) -> io::Result<()> {
        let ended = self.ended;
        // Where standard error takes no words, the answer stands.
        let _ = writeln!(self.errors, "replay: line {ended}: of no command's form");
        writeln!(self.answers, "?")
    }

    // Writes the answers that are gathered.
    pub fn flush(&mut self) -> io::Result<()> {
        self.answers.flush()
    }
}
