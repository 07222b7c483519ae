// Words of what is prepared, place by place.
ghost use Rattle.std.specs.Prelude.{◌≤◌, ◌<◌};
ghost use Rattle.prepared.specs.Inner.Parts.{Placed};

use crate::layout::Prepared;

// From one place up to another, each word by its place.
pub fn fill<F: Fn(usize) -> u32>(prepared: &mut Prepared, start: usize, end: usize, word: F)
    requires within { end ≤ 1342 }
    requires callable { (i : _) → start ≤ i → i < end → F.pre word i }
    ensures { Placed start end (F.post word) prepared.old prepared.new }
{
    for i in start..end {
        prepared[i] = word(i);
    }
}
