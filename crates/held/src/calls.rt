// Open and feed, as the crate modes answers them.
ghost use Rattle.held.specs.Calls.{HeldOpenedBy, HeldFedBy};

use crate::form;
use crate::form::HeldSession;
use modes::Session;
use rules::Mode;

// The number where a mode's number is no mode's: it is none of the questions'.
pub const NO_MODE: usize = 64;

#[repr(C)]
#[derive(Clone, Copy)]
pub struct HeldOpened {
    pub session: HeldSession,
    pub number: usize,
}

#[repr(C)]
#[derive(Clone, Copy)]
pub struct HeldFed {
    pub session: HeldSession,
    pub runs: usize,
    pub number: usize,
}

// A number that is no mode's gives the refused session, as every refused opening does.
pub fn open(mode: usize, decrypting: u8, n: usize, m: usize, key: &[u8], iv: &[u8]) -> HeldOpened
    ensures { HeldOpenedBy mode decrypting n m key.now iv.now result }
{
    let Ok(own) = Mode::try_from(mode) else {
        return HeldOpened {
            session: Session::refused().into(),
            number: NO_MODE,
        };
    };
    let direction = rules::direction_of(form::is_set(decrypting));
    let opened = Session::open_counter(own, direction, n, m, key, iv);
    HeldOpened {
        session: opened.session.into(),
        number: opened.number.into(),
    }
}

// A refused feed gives the session as it was handed over, byte for byte.
pub fn feed(held: HeldSession, input: &[u8], bits: usize, out: &mut [u8], place: usize) -> HeldFed
    ensures { HeldFedBy held input.now bits out.old place result out.new }
{
    let Ok(session) = Session::try_from(held) else {
        return HeldFed {
            session: held,
            runs: 0,
            number: NO_MODE,
        };
    };
    let fed = session.feed(input, bits, out, place);
    let next = if fed.number == 0 {
        form::moved(held, fed.session)
    } else {
        held
    };
    HeldFed {
        session: next,
        runs: fed.runs,
        number: fed.number.into(),
    }
}
