// Sessions of the release before request 07, whose units were a 32-bit number, carried over into today's.
#![tactic(auto)]

ghost use Rattle.std.specs.Prelude.{◌≡◌};
ghost use Rattle.carry.specs.Older.{carried};

use modes::Session;
use rules::{Direction, Mode};

// The session as that release had it: its parts, in its order.
#[derive(Clone, Copy)]
pub struct Session32 {
    pub mode: Mode,
    pub direction: Direction,
    pub n: usize,
    pub m: usize,
    pub rounds: usize,
    pub keys: [u8; 240],
    pub register: [u8; 16],
    pub units: u32,
    pub closed: bool,
}

impl Session32 {
    // Today's session with each part as it was.
    #[tactic(auto, unfolding(crate::specs::Older::carried))]
    pub fn carried(self) -> Session
        ensures { result ≡ carried self }
    {
        let keys = self.keys;
        let register = self.register;
        Session {
            mode: self.mode,
            direction: self.direction,
            n: self.n,
            m: self.m,
            rounds: self.rounds,
            keys,
            register,
            units: self.units.into(),
            closed: self.closed,
        }
    }
}

impl From<Session32> for Session {
    ghost from_gives = { λ older session. session ≡ carried older };

    fn from(older: Session32) -> Session {
        older.carried()
    }
}
