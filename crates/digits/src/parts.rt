// A text taken apart at a byte.
ghost use Rattle.std.specs.Prelude.{◌≡◌, option_map};
ghost use Rattle.digits.specs.Texts.{cut, cut_in};

use crate::scan::up_to;

// What stands before the first `stop`, and what after it; `None` where there is none.
#[tactic(auto, unfolding(crate::specs::Texts::cut))]
pub fn cut(s: &[u8], stop: u8) -> Option<(&[u8], &[u8])>
    ensures { option_map cut_in result ≡ cut stop s.now }
{
    let end = up_to(s, stop);
    if end < s.len() {
        Some((&s[..end], &s[end + 1..]))
    } else {
        None
    }
}
