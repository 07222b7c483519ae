// The output that a call is lent.
ghost use Rattle.std.specs.Prelude.{◌≤◌};
ghost use Rattle.script.specs.declared.words.TheConstants.{MAX_BYTES};

use script::{MAX_BYTES, Words};

// As many bytes, what each of them is before the call, and the place that the call is given.
#[derive(Clone, Copy)]
pub struct Output {
    size: usize,
    pub place: usize,
    fill: u8,
    ghost fits: { size ≤ MAX_BYTES },
}

impl Output {
    // OUTLEN PLACE FILL
    pub fn read(words: &mut Words<'_>) -> Option<Output> {
        Some(Output {
            size: words.size()?,
            place: words.number()?,
            fill: words.byte()?,
        })
    }

    pub fn lent<'a>(&self, room: &'a mut [u8; MAX_BYTES]) -> &'a mut [u8] {
        let out = &mut room[..self.size];
        out.fill(self.fill);
        out
    }
}
