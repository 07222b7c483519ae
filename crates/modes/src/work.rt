// The loop over a feed's units.
ghost use Rattle.std.specs.Prelude.{◌≡◌, true, ◌<◌};
ghost use Rattle.cipher.specs.Cipher.{rounds_ok};
ghost use Rattle.rules.specs.Rules.{units_in};
ghost use Rattle.prepared.specs.Prepared.{prepared_block};
ghost use Rattle.modes.specs.Inner.Works.{Workable, RunsUnder, UnitWorked, Worked};

use crate::session::Session;
use prepared::Prepared;
use units::{Rule, Step};

// What units leave: R after them, and the runs of the block function that they took.
#[derive(Clone, Copy)]
pub struct Progress {
    pub register: [u8; 16],
    pub runs: usize,
}

// Processes the feed's unit t from R before it, on the part of the input that begins at the byte holding its first bit.
fn work_unit(
    rule: &Rule,
    n: usize,
    register: [u8; 16],
    input: &[u8],
    bits: usize,
    out: &mut [u8],
    t: usize,
) -> Progress
    requires { Workable rule.now.mode n input.now bits out.old × (t < units_in n bits) }
    ensures { UnitWorked (prepared_block rule.now.prepared.now) rule.now.mode rule.now.direction n rule.now.m register input.now bits out.old t result out.new }
{
    let at = t * n;
    let size = n.min(bits - at);
    let a = at / 8;
    let Step {
        out: text,
        register,
        runs,
    } = rule.turn(register, &input[a..], at % 8, size);
    bits::put_bits(out, at, text, size);
    Progress { register, runs }
}

// Processes all units, one after the other, by what was prepared, and adds up their runs.
fn work_units(
    session: Session,
    prepared: &Prepared,
    input: &[u8],
    bits: usize,
    out: &mut [u8],
) -> Progress
    requires { Workable session.mode session.n input.now bits out.old × RunsUnder session.rounds session.keys session.mode session.direction (prepared_block prepared.now) }
    ensures { Worked session.mode session.direction session.n session.m session.rounds session.keys session.register input.now bits out.old result out.new }
{
    let rule = Rule {
        mode: session.mode,
        direction: session.direction,
        m: session.m,
        prepared,
    };
    let units = questions::units_in(session.n, bits);
    let register = session.register;
    let mut done = Progress { register, runs: 0 };
    for t in 0..units {
        let Progress { register, runs } = work_unit(
            &rule,
            session.n,
            done.register,
            input,
            bits,
            out,
            t,
        );
        done = Progress {
            register,
            runs: done.runs + runs,
        };
    }
    done
}

// Processes the first `bits` bits of `input`, writes what they become from the first bit of `out` on, and gives the
// session's register after them, with the runs of the block function. What that needs is prepared once.
pub fn work(session: Session, input: &[u8], bits: usize, out: &mut [u8]) -> Progress
    requires { Workable session.mode session.n input.now bits out.old × (rounds_ok session.rounds ≡ true) }
    ensures { Worked session.mode session.direction session.n session.m session.rounds session.keys session.register input.now bits out.old result out.new }
{
    let decrypting = units::runs_dec(session.mode, session.direction);
    let mut words = [0; prepared::WORDS];
    prepared::prepare(decrypting, session.rounds, &session.keys, &mut words);
    work_units(session, &words, input, bits, out)
}
