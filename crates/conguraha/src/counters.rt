// What is answered without running the cipher: what a feed will cost, and the place of a counter block.
ghost use Rattle.places.specs.Answers.{ToldBy};
ghost use Rattle.conguraha.specs.Answers.{HeldForecastBy, place_of};

use rules::Mode;

// What an accepted feed of a given number of bits will write and run; zeros where it is refused.
#[repr(C)]
#[derive(Clone, Copy)]
pub struct Forecast {
    pub bytes: usize,
    pub runs: usize,
    pub number: usize,
}

#[unsafe(no_mangle)]
pub extern "C" fn conguraha1_forecast(mode: usize, n: usize, bits: usize) -> Forecast
    ensures { HeldForecastBy mode n bits result }
{
    let Ok(own) = Mode::try_from(mode) else {
        return Forecast {
            bytes: 0,
            runs: 0,
            number: held::NO_MODE,
        };
    };
    match forecast::forecast(own, n, bits) {
        Ok(cost) => Forecast {
            bytes: cost.bytes,
            runs: cost.runs,
            number: 0,
        },
        Err(refusal) => Forecast {
            bytes: 0,
            runs: 0,
            number: u8::from(refusal).into(),
        },
    }
}

// How often the IV was counted up, in its lowest m bits, to give the block: 16 bytes, highest first, and zero bytes
// where it is refused.
#[repr(C)]
#[derive(Clone, Copy)]
pub struct CounterPlace {
    pub increments: [u8; 16],
    pub number: usize,
}

#[unsafe(no_mangle)]
pub extern "C" fn conguraha1_counter_place(
    iv: &[u8; 16],
    block: &[u8; 16],
    m: usize,
) -> CounterPlace
    ensures { ToldBy iv.now block.now m (place_of result) }
{
    match places::of_block(*iv, *block, m) {
        Ok(increments) => CounterPlace {
            increments,
            number: 0,
        },
        Err(refusal) => CounterPlace {
            increments: [0; 16],
            number: u8::from(refusal).into(),
        },
    }
}
