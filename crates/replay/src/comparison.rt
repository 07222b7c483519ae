// Sessions compared.
use crate::state::State;
use script::Words;
use std::io;
use std::io::Write;

impl State {
    // keep
    pub fn keep(&mut self, words: Words<'_>) -> Option<io::Result<()>> {
        words.end()?;
        self.kept = self.session;
        Some(writeln!(self.answers, "kept"))
    }

    // alike
    pub fn alike(&mut self, words: Words<'_>) -> Option<io::Result<()>> {
        words.end()?;
        let answer = if inspect::alike(self.session, self.kept) {
            "yes"
        } else {
            "no"
        };
        Some(writeln!(self.answers, "{answer}"))
    }
}
