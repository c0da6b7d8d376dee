// How many groups of three deltas a set has (A/52 7.1.3).
ghost use Rattle.std.specs.Prelude.{◌≡◌, ◌≤◌};
ghost use Rattle.shaping.specs.Groups.{groups, groups_answer};

use crate::spans::is_span;
use bits::Refusal;

// A third is taken as 85 / 256, which cut to whole is (end - 1) / 3 up to an end of 258, also for an end of 0. A group of span 2 or 4 takes the
// bins of two or four groups of D15, the last perhaps of fewer.
#[tactic(auto, unfolding(crate::specs::Groups::groups))]
pub fn groups_of(end: usize, grpsize: usize) -> usize
    requires { end ≤ 256 }
    ensures { (result ≡ groups end grpsize) × (result ≤ 85) }
{
    let product = 85 * end;
    match grpsize {
        1 => product / 256,
        2 => (product + 256) / 512,
        _ => (product + 768) / 1024,
    }
}

#[tactic(auto, unfolding(crate::specs::Groups::groups_answer))]
pub fn ngrps_for_strategy(end: usize, grpsize: usize) -> Result<u32, Refusal>
    ensures { result ≡ groups_answer end grpsize }
{
    if 256 < end {
        return Err(Refusal::OutOfRange);
    }
    if !is_span(grpsize) {
        return Err(Refusal::OutOfRange);
    }
    Ok(groups_of(end, grpsize) as u32)
}
