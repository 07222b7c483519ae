// Sessions: opened under a key and an IV, and fed; a feed takes the session and gives the next one.
ghost use Rattle.std.specs.Prelude.{◌+◌, ◌≤◌, ◌<◌, ◌≡◌};
ghost use Rattle.rules.specs.Rules.{units_in};
ghost use Rattle.questions.specs.Questions.{max_units};
ghost use Rattle.modes.specs.Sessions.{OpenedBy, FedBy, refused_session, moved_session};
ghost use Rattle.modes.specs.Inner.Openings.{opened_in};

use crate::work;
use questions::{Lent, Refusal};
use rules::{Direction, Mode};

// A session, as document 01 lists it, and m. `n` is the unit's bits, `m` those of the counter, `register` is R.
#[derive(Clone, Copy)]
pub struct Session {
    pub mode: Mode,
    pub direction: Direction,
    pub n: usize,
    pub m: usize,
    pub rounds: usize,
    pub keys: [u8; 240],
    pub register: [u8; 16],
    pub units: u64,
    pub closed: bool,
}

// What an opening and a feed give: the number, 0 or that of the first question answered 'no', and the session. Of a
// feed also the runs of the block cipher that it made. No `Result`: a refusal gives a session too, and document 01 has
// the number beside it.
#[derive(Clone, Copy)]
pub struct Opened {
    pub number: u8,
    pub session: Session,
}

#[derive(Clone, Copy)]
pub struct Fed {
    pub number: u8,
    pub session: Session,
    pub runs: usize,
}

impl Session {
    // The block, in bytes.
    pub const BLOCK: usize = questions::BLOCK;

    // The largest feed, in bits.
    pub const MAX_BITS: usize = questions::MAX_BITS;

    // The most units that a session does.
    pub const MAX_UNITS: u64 = questions::MAX_UNITS;

    // What a refused opening gives.
    #[tactic(auto, unfolding(crate::specs::Sessions::refused_session))]
    pub fn refused() -> Session
        ensures { result ≡ refused_session }
    {
        Session {
            mode: Mode::Ecb,
            direction: Direction::Encrypt,
            n: 0,
            m: 0,
            rounds: 0,
            keys: [0; 240],
            register: [0; 16],
            units: 0,
            closed: true,
        }
    }

    // The whole block counts in CTR.
    pub fn open(mode: Mode, direction: Direction, n: usize, key: &[u8], iv: &[u8]) -> Opened
        ensures { OpenedBy mode direction n 128 key.now iv.now result }
    {
        Session::open_counter(mode, direction, n, questions::BLOCK_BITS, key, iv)
    }

    // The lowest m bits of the block count in CTR.
    pub fn open_counter(
        mode: Mode,
        direction: Direction,
        n: usize,
        m: usize,
        key: &[u8],
        iv: &[u8],
    ) -> Opened
        ensures { OpenedBy mode direction n m key.now iv.now result }
    {
        match Session::try_open(mode, direction, n, m, key, iv) {
            Ok(session) => Opened { number: 0, session },
            Err(refusal) => Opened {
                number: refusal.into(),
                session: Session::refused(),
            },
        }
    }

    fn try_open(
        mode: Mode,
        direction: Direction,
        n: usize,
        m: usize,
        key: &[u8],
        iv: &[u8],
    ) -> Result<Session, Refusal>
        ensures { OpenedBy mode direction n m key.now iv.now (opened_in result) }
    {
        questions::ask_open(mode, n, m, key, iv)?;
        let schedule = aes::expand(key)?;
        let keys = schedule.keys;
        // The IV, and zero bytes where there is none.
        let register = bits::window(iv, 0, questions::BLOCK_BITS);
        Ok(Session {
            mode,
            direction,
            n,
            m,
            rounds: schedule.rounds,
            keys,
            register,
            units: 0,
            closed: false,
        })
    }

    // The session after an accepted feed of `bits` bits, which left R as `register`.
    fn moved(self, register: [u8; 16], bits: usize) -> Session
        requires { (0 < self.n) × (self.units + units_in self.n bits ≤ max_units) }
        ensures { result ≡ moved_session self register bits }
    {
        Session {
            register,
            units: self.units + questions::units_in(self.n, bits) as u64,
            closed: bits % self.n != 0,
            ..self
        }
    }

    // Feeds the first `bits` bits of `input`, and writes what they become from out[place] on.
    pub fn feed(self, input: &[u8], bits: usize, out: &mut [u8], place: usize) -> Fed
        ensures { FedBy self input.now bits out.old place result out.new }
    {
        let lent = Lent {
            bytes: input.len(),
            bits,
            size: out.len(),
            place,
        };
        if let Err(refusal) = questions::ask_feed(
            self.mode,
            self.rounds,
            self.n,
            self.m,
            self.closed,
            self.units,
            lent,
        ) {
            return Fed {
                number: refusal.into(),
                session: self,
                runs: 0,
            };
        }
        let worked = work::work(self, input, bits, &mut out[place..]);
        Fed {
            number: 0,
            session: self.moved(worked.register, bits),
            runs: worked.runs,
        }
    }
}
