// One unit: what each mode makes of it, the register after it, and the runs of the block function that it took. A unit
// stands left-aligned in 16 bytes.
ghost use Rattle.std.specs.Prelude.{ℕ, ◌≡◌, true, ◌≤◌, take, drop};
ghost use Rattle.bits.specs.Texts.{bits, pack_to};
ghost use Rattle.prepared.specs.Prepared.{prepared_block};
ghost use Rattle.units.specs.Inner.Turns.{runs_dec, Turned, unit_size_ok};

use prepared::{Prepared, Ran};
use rules::{Direction, Mode};

#[derive(Clone, Copy)]
pub struct Step {
    pub out: [u8; 16],
    pub register: [u8; 16],
    pub runs: usize,
}

// Does the mode run Dec, and not Enc, in this direction?
pub fn runs_dec(mode: Mode, direction: Direction) -> bool
    ensures { result ≡ runs_dec mode direction }
{
    match mode {
        Mode::Ecb | Mode::Cbc => rules::decrypts(direction),
        Mode::Cfb | Mode::Ofb | Mode::Ctr => false,
    }
}

// What all units of a text are processed by. The block function is Enc or Dec, by what was prepared for it; `m` is the
// counter's bits in CTR.
#[derive(Clone, Copy)]
pub struct Rule<'a> {
    pub mode: Mode,
    pub direction: Direction,
    pub m: usize,
    pub prepared: &'a Prepared,
}

impl Rule<'_> {
    fn ecb(&self, register: [u8; 16], unit: [u8; 16]) -> Step
        ensures { Turned (prepared_block self.now.prepared.now) Mode.Ecb self.now.direction self.now.m register unit 128 result }
    {
        let Ran { block: out, runs } = prepared::run(self.prepared, unit);
        Step {
            out,
            register,
            runs,
        }
    }

    fn cbc(&self, register: [u8; 16], unit: [u8; 16]) -> Step
        ensures { Turned (prepared_block self.now.prepared.now) Mode.Cbc self.now.direction self.now.m register unit 128 result }
    {
        match self.direction {
            Direction::Encrypt => {
                let Ran { block, runs } = prepared::run(
                    self.prepared,
                    bits::xor_block(unit, register),
                );
                Step {
                    out: block,
                    register: block,
                    runs,
                }
            }
            Direction::Decrypt => {
                let Ran { block, runs } = prepared::run(self.prepared, unit);
                let out = bits::xor_block(block, register);
                Step {
                    out,
                    register: unit,
                    runs,
                }
            }
        }
    }

    fn ofb(&self, register: [u8; 16], unit: [u8; 16]) -> Step
        ensures { (size : ℕ) → size ≤ 128 → Turned (prepared_block self.now.prepared.now) Mode.Ofb self.now.direction self.now.m register unit size result }
    {
        let Ran { block, runs } = prepared::run(self.prepared, register);
        let out = bits::xor_block(unit, block);
        Step {
            out,
            register: block,
            runs,
        }
    }

    // As OFB, but R loses its first bits, as many as the unit has, and gains the ciphertext at its end.
    fn cfb(&self, register: [u8; 16], unit: [u8; 16], size: usize) -> Step
        requires { size ≤ 128 }
        ensures { Turned (prepared_block self.now.prepared.now) Mode.Cfb self.now.direction self.now.m register unit size result }
    {
        let Step { out, runs, .. } = self.ofb(register, unit);
        let ciphertext = match self.direction {
            Direction::Encrypt => out,
            Direction::Decrypt => unit,
        };
        let register = bits::shift_in(register, ciphertext, size);
        Step {
            out,
            register,
            runs,
        }
    }

    // As OFB, but R counts up.
    fn ctr(&self, register: [u8; 16], unit: [u8; 16]) -> Step
        ensures { (size : ℕ) → size ≤ 128 → Turned (prepared_block self.now.prepared.now) Mode.Ctr self.now.direction self.now.m register unit size result }
    {
        let Step { out, runs, .. } = self.ofb(register, unit);
        let register = counter::increment_block(register, self.m);
        Step {
            out,
            register,
            runs,
        }
    }

    // Processes the unit of `size` bits that begins `offset` bits into a part of the input. In ECB and CBC a unit is a
    // whole block.
    pub fn turn(&self, register: [u8; 16], part: &[u8], offset: usize, size: usize) -> Step
        requires { unit_size_ok self.now.mode size ≡ true }
        ensures { Turned (prepared_block self.now.prepared.now) self.now.mode self.now.direction self.now.m register (pack_to 16 (take size (drop offset (bits part.now)))) size result }
    {
        let unit = bits::window(part, offset, size);
        match self.mode {
            Mode::Ecb => self.ecb(register, unit),
            Mode::Cbc => self.cbc(register, unit),
            Mode::Cfb => self.cfb(register, unit, size),
            Mode::Ofb => self.ofb(register, unit),
            Mode::Ctr => self.ctr(register, unit),
        }
    }
}
