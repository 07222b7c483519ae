// Runs a written list of calls, one to a line of standard input, and prints each call's answer as one line: a recorded
// transmission is replayed, or a test drives lists of feeds. Bytes are lower-case hexadecimal, `-` for none; numbers
// are decimal, may have leading zeros, and fit in 64 bits; FILL is the byte that the output holds before the call.
// BLOCK and R are 16 bytes, and of `place` IV and INCREMENTS are too; CLOSED is 0 or 1.
//
//     open MODE N E|D KEY IV                             NUMBER, of an opening with M = 128
//     open-counter MODE N M E|D KEY IV                   NUMBER
//     feed BITS OUTLEN PLACE FILL INPUT                  NUMBER OUT R UNITS CLOSED RUNS
//     session MODE N M E|D ROUNDS R UNITS CLOSED KEYS    set: every field by hand; at most 240 KEYS, then 00
//     show                                               MODE N M E|D ROUNDS R UNITS CLOSED KEYS, of the session
//     units COUNT                                        COUNT: so the session's units are set, for tests
//     carry                                              UNITS: of the session, made an older one, carried over
//     keep                                               kept: `alike` compares with this session from now on
//     alike                                              yes or no
//     forecast MODE N BITS                               NUMBER BYTES RUNS
//     place M IV BLOCK                                   NUMBER INCREMENTS: how often IV is counted up to BLOCK
//     pad BITS OUTLEN PLACE FILL INPUT                   NUMBER LENGTH OUT
//     unpad BITS INPUT                                   NUMBER LENGTH
//     neighbour IV TEXT J                                the part
//     block KEY IV TEXT J OUTLEN PLACE FILL              NUMBER OUT
//     steal E|D KEY IV BITS OUTLEN PLACE FILL INPUT      NUMBER OUT
//     expand KEY                                         NUMBER ROUNDS KEYS
//     encrypt KEY BLOCK                                  NUMBER BLOCK
//     decrypt KEY BLOCK                                  NUMBER BLOCK
//
// A session that a refused opening gave is there before the first opening and `keep`. A line of no bytes, or whose
// first byte is `#`, is passed over and prints nothing. A line of another form prints `?` and changes nothing; so does
// one that is too long: INPUT, TEXT and OUTLEN have at most `MAX_BYTES` bytes, and the whole line, without its line
// feed, `MAX_LINE` (both in the crate `script`). So does `carry` where the units do not fit in the older release's 32
// bits. A last line that no line feed ends counts if it is not empty.
#![tactic(auto)]

mod answered;
mod archive;
mod blocks;
mod commands;
mod comparison;
mod counters;
mod feeding;
mod output;
mod room;
mod sessions;
mod state;
mod texts;

use room::Room;
use state::State;
use std::io;
use std::io::Read;

// Runs each line that ends in this part of the input, gathers what follows the last, and writes the answers.
fn run_part(part: &[u8], room: &mut Room, state: &mut State) -> io::Result<()> {
    for piece in part.split_inclusive(|b| *b == b'\n') {
        match piece.split_last() {
            Some((b'\n', end)) => {
                room.gather(end)?;
                state.end_line(room)?;
                room.line.clear();
            }
            _ => room.gather(piece)?,
        }
    }
    state.flush()
}

fn main(rt: HostRuntime) -> io::Result<()> {
    let mut part = [0u8; 65536];
    let mut room = Room::new();
    let mut state = State::new(rt.stdout(), rt.stderr());
    // A proved loop has to end, and nothing says that the input does. So the loop counts its turns, up to a number that
    // no run uses up.
    for _ in 0..u64::MAX {
        // A read that fails is taken for the input's end.
        let count = rt.stdin().read(&mut part).unwrap_or(0);
        if count == 0 {
            break;
        }
        run_part(&part[..count], &mut room, &mut state)?;
    }
    // What follows the last line feed runs as if one ended it.
    if !room.line.is_empty() {
        run_part(b"\n", &mut room, &mut state)?;
    }
    Ok(())
}
