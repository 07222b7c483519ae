// Sessions, opened and set by hand.
use crate::state::State;
use carry::Session32;
use modes::{Opened, Session};
use script::{Hex, Space, Words};
use std::io::Write;
use std::{fmt, io};

// What an opening settles: mode, n, m, direction and rounds.
#[derive(Clone, Copy)]
struct Settings<'a>(&'a Session);

impl fmt::Display for Settings<'_> {
    fn fmt<W: fmt::Write>(&self, f: &mut fmt::Formatter<W>) -> fmt::Result {
        let session = self.0;
        write!(
            f,
            "{} {} {} {} {}",
            session.mode, session.n, session.m, session.direction, session.rounds
        )
    }
}

// What feeds move: R, units and closing.
#[derive(Clone, Copy)]
pub struct Progress<'a>(pub &'a Session);

impl fmt::Display for Progress<'_> {
    fn fmt<W: fmt::Write>(&self, f: &mut fmt::Formatter<W>) -> fmt::Result {
        let session = self.0;
        write!(
            f,
            "{} {} {}",
            Hex(&session.register),
            session.units,
            u8::from(session.closed)
        )
    }
}

// MODE N M E|D ROUNDS R UNITS CLOSED KEYS
fn by_hand(words: &mut Words<'_>, space: &mut Space<'_>) -> Option<Session> {
    let mode = words.mode()?;
    let n = words.number()?;
    let m = words.number()?;
    let direction = words.direction()?;
    let rounds = words.number()?;
    let register = words.block()?;
    let units = words.number()? as u64;
    let closed = match words.number()? {
        0 => false,
        1 => true,
        _ => return None,
    };
    let first_keys = words.bytes(space)?;
    let mut keys = [0u8; 240];
    keys.get_mut(..first_keys.len())?
        .copy_from_slice(first_keys);
    Some(Session {
        mode,
        direction,
        n,
        m,
        rounds,
        keys,
        register,
        units,
        closed,
    })
}

// The older release's session with the same parts; none where its 32 bits do not hold the units.
// No `TryFrom`, since both types are other crates'.
fn older(session: &Session) -> Option<Session32> {
    Some(Session32 {
        mode: session.mode,
        direction: session.direction,
        n: session.n,
        m: session.m,
        rounds: session.rounds,
        keys: session.keys,
        register: session.register,
        units: u32::try_from(session.units).ok()?,
        closed: session.closed,
    })
}

impl State {
    fn opened(&mut self, opened: Opened) -> Option<io::Result<()>> {
        self.session = opened.session;
        Some(writeln!(self.answers, "{}", opened.number))
    }

    // open MODE N E|D KEY IV
    pub fn open(&mut self, mut words: Words<'_>, space: &mut Space<'_>) -> Option<io::Result<()>> {
        let mode = words.mode()?;
        let n = words.number()?;
        let direction = words.direction()?;
        let key = words.bytes(space)?;
        let iv = words.bytes(space)?;
        words.end()?;
        self.opened(Session::open(mode, direction, n, key, iv))
    }

    // open-counter MODE N M E|D KEY IV
    pub fn open_counter(
        &mut self,
        mut words: Words<'_>,
        space: &mut Space<'_>,
    ) -> Option<io::Result<()>> {
        let mode = words.mode()?;
        let n = words.number()?;
        let m = words.number()?;
        let direction = words.direction()?;
        let key = words.bytes(space)?;
        let iv = words.bytes(space)?;
        words.end()?;
        self.opened(Session::open_counter(mode, direction, n, m, key, iv))
    }

    // session MODE N M E|D ROUNDS R UNITS CLOSED KEYS
    pub fn set(&mut self, mut words: Words<'_>, space: &mut Space<'_>) -> Option<io::Result<()>> {
        let session = by_hand(&mut words, space)?;
        words.end()?;
        self.session = session;
        Some(writeln!(self.answers, "set"))
    }

    // show
    pub fn show(&mut self, words: Words<'_>) -> Option<io::Result<()>> {
        words.end()?;
        let session = &self.session;
        Some(writeln!(
            self.answers,
            "{} {} {}",
            Settings(session),
            Progress(session),
            Hex(&session.keys)
        ))
    }

    // units COUNT
    pub fn units(&mut self, mut words: Words<'_>) -> Option<io::Result<()>> {
        let units = words.number()? as u64;
        words.end()?;
        self.session.units = units;
        Some(writeln!(self.answers, "{units}"))
    }

    // carry
    pub fn carry(&mut self, words: Words<'_>) -> Option<io::Result<()>> {
        words.end()?;
        self.session = older(&self.session)?.carried();
        Some(writeln!(self.answers, "{}", self.session.units))
    }
}
