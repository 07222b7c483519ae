// Sessions, as the crate held answers them, and whether two are alike.
ghost use Rattle.std.specs.Prelude.{◌≡◌};
ghost use Rattle.held.specs.Held.{flag_of, carried_held};
ghost use Rattle.held.specs.Calls.{HeldOpenedBy, HeldFedBy};
ghost use Rattle.conguraha.specs.Sessions.{alike_held};

use held::{HeldFed, HeldOpened, HeldSession, HeldSession32};
use modes::Session;

// Opens a session in which the whole block counts in CTR.
#[unsafe(no_mangle)]
pub extern "C" fn conguraha1_open(
    mode: usize,
    decrypting: u8,
    n: usize,
    key: &[u8],
    iv: &[u8],
) -> HeldOpened
    ensures { HeldOpenedBy mode decrypting n 128 key.now iv.now result }
{
    held::open(mode, decrypting, n, 128, key, iv)
}

// Opens a session in which the lowest m bits of the block count in CTR.
#[unsafe(no_mangle)]
pub extern "C" fn conguraha1_open_counter(
    mode: usize,
    decrypting: u8,
    n: usize,
    m: usize,
    key: &[u8],
    iv: &[u8],
) -> HeldOpened
    ensures { HeldOpenedBy mode decrypting n m key.now iv.now result }
{
    held::open(mode, decrypting, n, m, key, iv)
}

// Feeds the first `bits` bits of `input`, and writes what they become from out[place] on.
#[unsafe(no_mangle)]
pub extern "C" fn conguraha1_feed(
    session: HeldSession,
    input: &[u8],
    bits: usize,
    out: &mut [u8],
    place: usize,
) -> HeldFed
    ensures { HeldFedBy session input.now bits out.old place result out.new }
{
    held::feed(session, input, bits, out, place)
}

// Today's session with each part of an older one as it was. It refuses nothing.
#[unsafe(no_mangle)]
pub extern "C" fn conguraha1_carry(older: HeldSession32) -> HeldSession
    ensures { result ≡ carried_held older }
{
    held::carried(older)
}

// 1 where the two are alike, else 0. A session whose mode is none is alike to no session, not even to itself.
#[unsafe(no_mangle)]
pub extern "C" fn conguraha1_alike(a: HeldSession, b: HeldSession) -> u8
    ensures { result ≡ flag_of (alike_held a b) }
{
    let Ok(first) = Session::try_from(a) else {
        return 0;
    };
    let Ok(second) = Session::try_from(b) else {
        return 0;
    };
    held::flag(inspect::alike(first, second))
}
