// Bytes searched and tested one by one.
ghost use Rattle.std.specs.Prelude.{◌≡◌};
ghost use Rattle.digits.specs.Texts.{up_to, between};

// How many bytes stand before the first `stop`; all of them where there is none.
pub fn up_to(s: &[u8], stop: u8) -> usize
    ensures { result ≡ up_to stop s.now }
{
    s.iter().position(|b| *b == stop).unwrap_or(s.len())
}

// Is the byte from `low` to `high`?
#[tactic(auto, unfolding(crate::specs::Texts::between))]
pub fn between(b: u8, low: u8, high: u8) -> bool
    ensures { result ≡ between low high b }
{
    (low..=high).contains(&b)
}
