// Calls each function of `bits` and `counter` at its edges and prints what it gave. The file `stdout` has what the
// definitions give; expected.py, which shares nothing with the crate, writes it.
#![tactic(auto)]

ghost use Rattle.std.specs.Prelude.{◌≤◌, ◌<◌};

use std::io;
use std::io::{Stdout, Write};

const FIRST: [u8; 16] = [
    0x2b, 0x7e, 0x15, 0x16, 0x28, 0xae, 0xd2, 0xa6, 0xab, 0xf7, 0x15, 0x88, 0x09, 0xcf, 0x4f, 0x3c,
];

const SECOND: [u8; 16] = [
    0x6b, 0xc1, 0xbe, 0xe2, 0x2e, 0x40, 0x9f, 0x96, 0xe9, 0x3d, 0x7e, 0x11, 0x73, 0x93, 0x17, 0x2a,
];

const LENGTHS: [usize; 9] = [0, 1, 3, 7, 8, 9, 127, 128, 200];

fn show(mut out: Stdout, bytes: &[u8]) -> io::Result<()> {
    for b in bytes {
        write!(out, "{b:02x}")?;
    }
    out.write_all(b"\n")
}

fn show_window(out: Stdout, s: &[u8], offset: usize, n: usize) -> io::Result<()> {
    show(out, &bits::window(s, offset, n))
}

fn show_windows(out: Stdout, s: &[u8], n: usize) -> io::Result<()> {
    for offset in 0..10 {
        show_window(out, s, offset, n)?;
    }
    show_window(out, s, usize::MAX, n)
}

fn show_put(out: Stdout, at: usize, n: usize) -> io::Result<()>
    requires { (at < 10) × (n ≤ 128) }
{
    let mut bytes = [255u8; 19];
    bits::put_bits(&mut bytes, at, SECOND, n);
    show(out, &bytes)
}

fn show_puts(out: Stdout, n: usize) -> io::Result<()>
    requires { n ≤ 128 }
{
    for at in 0..10 {
        show_put(out, at, n)?;
    }
    Ok(())
}

fn show_length(out: Stdout, n: usize) -> io::Result<()> {
    show_windows(out, &FIRST, n)?;
    show_windows(out, b"\xa5\x0f", n)?;
    show(out, &bits::shift_in(FIRST, SECOND, n))?;
    if n <= 128 { show_puts(out, n) } else { Ok(()) }
}

fn show_lengths(out: Stdout) -> io::Result<()> {
    for n in LENGTHS {
        show_length(out, n)?;
    }
    Ok(())
}

const COUNTERS: [usize; 14] = [0, 1, 3, 7, 8, 9, 16, 64, 119, 120, 121, 127, 128, 200];

// A counter that wraps with any m, one that wraps with m up to 123, and one that wraps with m up to 3.
fn show_increments(out: Stdout, m: usize) -> io::Result<()> {
    let mut block = [255u8; 16];
    show(out, &counter::increment_block(block, m))?;
    block[0] = 7;
    show(out, &counter::increment_block(block, m))?;
    block[15] = 7;
    show(out, &counter::increment_block(block, m))
}

fn show_counters(out: Stdout) -> io::Result<()> {
    for m in COUNTERS {
        show_increments(out, m)?;
    }
    Ok(())
}

fn main(rt: HostRuntime) -> io::Result<()> {
    let out = rt.stdout();
    show_lengths(out)?;
    show(out, &bits::xor_block(FIRST, SECOND))?;
    show_counters(out)
}
