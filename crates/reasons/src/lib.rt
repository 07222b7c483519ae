// Why the text program answers 12: the line of its input that does not have its form, and what is wrong there. What is
// found is for a person to read; proved is that there is a reason exactly where the answer is 12, and that it has
// words.
#![tactic(auto)]

mod fault;
mod find;

ghost use Rattle.reasons.specs.Reasons.{ReasonFor};

pub use fault::{Fault, Reason};

// Where no line has a fault, something follows the fourth.
const MORE_LINES: Reason = Reason {
    line: 5,
    fault: Fault::MoreLines,
};

pub fn reason(input: &[u8]) -> Option<Reason>
    ensures { ReasonFor input.now result }
{
    if grammar::parse(input).is_some() {
        return None;
    }
    match find::lines(input) {
        Ok(_) => Some(MORE_LINES),
        Err(reason) => Some(reason),
    }
}
