// Answers as the lists of calls have them: the number, 0 where it is accepted, and the value.
use crate::state::State;
use questions::Refusal;
use script::Hex;
use std::io;
use std::io::Write;

// The value is `refused` where it is not.
pub fn answered<T: Copy, E: Copy>(answer: Result<T, E>, refused: T) -> (u8, T)
where
    Refusal: From<E>,
{
    match answer {
        Ok(value) => (0, value),
        Err(error) => (Refusal::from(error).into(), refused),
    }
}

impl State {
    // NUMBER BLOCK, of zero bytes where it is refused.
    pub fn answer_block<E: Drop>(&mut self, answer: Result<[u8; 16], E>) -> io::Result<()>
    where
        Refusal: From<E>,
    {
        match answer {
            Ok(block) => writeln!(self.answers, "0 {}", Hex(&block)),
            Err(error) => {
                let number = u8::from(Refusal::from(error));
                writeln!(self.answers, "{} {}", number, Hex(&[0; 16]))
            }
        }
    }
}
