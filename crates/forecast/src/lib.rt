// What a feed will cost, from mode, n and a bit count: the bytes that it will write and the runs of the block
// cipher that it will make. Nothing is run.
#![tactic(auto)]

ghost use Rattle.std.specs.Prelude.{◌≡◌};
ghost use Rattle.questions.specs.Refusals.{number_in};
ghost use Rattle.forecast.specs.Costs.{forecast_number, answered, ForecastBy};

use questions::Refusal;
use rules::Mode;

// What an accepted feed costs.
#[derive(Clone, Copy, Debug, PartialEq, Eq)]
pub struct Cost {
    pub bytes: usize,
    pub runs: usize,
}

// Questions 3, 6 and 7 in order. Of question 6 the limit is asked alone, since there is no input.
#[tactic(auto, unfolding(crate::specs::Costs::forecast_number, crate::specs::Costs::forecast_questions, questions::specs::Questions::ask))]
fn ask(mode: Mode, n: usize, bits: usize) -> Result<(), Refusal>
    ensures { number_in result ≡ forecast_number mode n bits }
{
    if !rules::unit_length_ok(mode, n) {
        return Err(Refusal::UnitLength);
    }
    if bits > questions::MAX_BITS {
        return Err(Refusal::Bits);
    }
    if !questions::whole_units(mode, n, bits) {
        return Err(Refusal::PartUnit);
    }
    Ok(())
}

pub fn forecast(mode: Mode, n: usize, bits: usize) -> Result<Cost, Refusal>
    ensures { ForecastBy mode n bits (answered result) }
{
    ask(mode, n, bits)?;
    Ok(Cost {
        bytes: questions::bytes_for(bits),
        runs: questions::units_in(n, bits),
    })
}
