// Whether two sessions are alike. Their units and their closing are not compared.
ghost use Rattle.std.specs.Prelude.{◌≡◌};
ghost use Rattle.inspect.specs.Alike.{keys_used, same_first, same_settings, alike_to};

use modes::Session;

// How many round key bytes are compared. The rounds may be any number.
#[tactic(auto, unfolding(crate::specs::Alike::keys_used))]
fn keys_used(rounds: usize) -> usize
    ensures { result ≡ keys_used rounds }
{
    Session::BLOCK * (rounds.min(14) + 1)
}

#[tactic(auto, using(crate::proofs::AlikeLaws::modes_equal, crate::proofs::AlikeLaws::directions_equal), unfolding(crate::specs::Alike::same_settings))]
fn same_settings(a: Session, b: Session) -> bool
    ensures { result ≡ same_settings a b }
{
    a.mode == b.mode
        && a.direction == b.direction
        && a.n == b.n
        && a.m == b.m
        && a.rounds == b.rounds
}

// By value: the compiler copies the keys then only once the settings are the same.
#[tactic(auto, using(crate::proofs::SameLaws::first_equal), unfolding(crate::specs::Alike::keys_used))]
fn same_keys(a: [u8; 240], b: [u8; 240], rounds: usize) -> bool
    ensures { result ≡ same_first (keys_used rounds) a b }
{
    let used = keys_used(rounds);
    a[..used] == b[..used]
}

#[tactic(auto, using(crate::proofs::SameLaws::whole_equal), unfolding(crate::specs::Alike::alike_to))]
pub fn alike(a: Session, b: Session) -> bool
    ensures { result ≡ alike_to a b }
{
    same_settings(a, b) && same_keys(a.keys, b.keys, a.rounds) && a.register == b.register
}
