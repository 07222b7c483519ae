// The structs, and the session that one stands for.
ghost use Rattle.std.specs.Prelude.{◌≡◌};
ghost use Rattle.held.specs.Held.{is_set, flag_of, session_of, held_of, moved_held, carried_held, StandsFor};

use modes::Session;
use rules::{Mode, NoMode};

// The C interface: numbers and bytes in place of enums and `bool`, and the number beside the session in what the calls
// give.

// A session. The spare bytes fill the struct up to whole words; an opening writes them 0, and no call looks at them.
#[repr(C)]
#[derive(Clone, Copy)]
pub struct HeldSession {
    pub units: u64,
    pub mode: usize,
    pub n: usize,
    pub m: usize,
    pub rounds: usize,
    pub keys: [u8; 240],
    pub register: [u8; 16],
    pub decrypting: u8,
    pub closed: u8,
    pub spare: [u8; 6],
}

// A session of the older release, whose units were a 32-bit number, with its fields where that release's header had
// them.
#[repr(C)]
#[derive(Clone, Copy)]
pub struct HeldSession32 {
    pub mode: usize,
    pub decrypting: u8,
    pub spare: [u8; 7],
    pub n: usize,
    pub m: usize,
    pub rounds: usize,
    pub keys: [u8; 240],
    pub register: [u8; 16],
    pub units: u32,
    pub closed: u8,
    pub spare2: [u8; 3],
}

#[tactic(auto, unfolding(crate::specs::Held::is_set))]
pub fn is_set(byte: u8) -> bool
    ensures { result ≡ is_set byte }
{
    byte != 0
}

#[tactic(auto, unfolding(crate::specs::Held::flag_of))]
pub fn flag(set: bool) -> u8
    ensures { result ≡ flag_of set }
{
    set.into()
}

// A number that is no mode's counts as CTR's here: a caller that may meet one takes `Session::try_from`.
#[tactic(auto, unfolding(crate::specs::Held::session_of))]
pub fn session_of(held: HeldSession) -> Session
    ensures { result ≡ session_of held }
{
    let keys = held.keys;
    let register = held.register;
    Session {
        mode: rules::mode_of(held.mode),
        direction: rules::direction_of(is_set(held.decrypting)),
        n: held.n,
        m: held.m,
        rounds: held.rounds,
        keys,
        register,
        units: held.units,
        closed: is_set(held.closed),
    }
}

impl TryFrom<HeldSession> for Session {
    type Error = NoMode;

    ghost try_from_gives = { StandsFor };

    // Put in line: no session is copied where the number is no mode's, and none before its parts are looked at.
    #[inline(always)]
    fn try_from(held: HeldSession) -> Result<Session, NoMode> {
        Mode::try_from(held.mode)?;
        Ok(session_of(held))
    }
}

impl From<Session> for HeldSession {
    ghost from_gives = { λ session held. held ≡ held_of session };

    #[tactic(auto, unfolding(crate::specs::Held::held_of))]
    fn from(session: Session) -> HeldSession {
        let keys = session.keys;
        let register = session.register;
        HeldSession {
            units: session.units,
            mode: session.mode.into(),
            n: session.n,
            m: session.m,
            rounds: session.rounds,
            keys,
            register,
            decrypting: flag(rules::decrypts(session.direction)),
            closed: flag(session.closed),
            spare: [0; 6],
        }
    }
}

// The session after a feed: R, units and closing are the moved session's, and every other field is as it was handed
// over.
#[tactic(auto, unfolding(crate::specs::Held::moved_held))]
pub fn moved(held: HeldSession, next: Session) -> HeldSession
    ensures { result ≡ moved_held held next }
{
    let register = next.register;
    HeldSession {
        units: next.units,
        register,
        closed: flag(next.closed),
        ..held
    }
}

// The older session with each part as it was, the mode's number too where it is no mode's.
#[tactic(auto, unfolding(crate::specs::Held::carried_held))]
pub fn carried(older: HeldSession32) -> HeldSession
    ensures { result ≡ carried_held older }
{
    let keys = older.keys;
    let register = older.register;
    HeldSession {
        units: older.units.into(),
        mode: older.mode,
        n: older.n,
        m: older.m,
        rounds: older.rounds,
        keys,
        register,
        decrypting: older.decrypting,
        closed: older.closed,
        spare: [0; 6],
    }
}
