// Which strategy a block's exponents are given (document 01, `pick_strategy_for_block`).
ghost use Rattle.std.specs.Prelude.{◌≡◌, ◌-◌, ◌≤◌, ◌<◌, length};
ghost use Rattle.shaping.specs.Strategies.{cost, picked, pick_answer};

use crate::spans::least_from;
use bits::Refusal;
use elements::Strategy;

// How far the bins from bin 1 on go down where each span of H + 1 becomes its least.
fn cost_of<const H: usize>(exp: &[u8]) -> u32
    requires { length exp.now ≤ 256 }
    ensures { (result ≡ cost H exp.now) × (result ≤ 65280) }
{
    let mut sum = 0u32;
    let mut j = 0;
    let mut v = 0u8;
    for i in 1..exp.len() {
        if j == 0 {
            v = least_from(exp, i, H);
            j = H;
        } else {
            j -= 1;
        }
        sum += u32::from(exp[i].saturating_sub(v));
    }
    sum
}

// The strategy of the exponents below end.
#[tactic(auto, unfolding(crate::specs::Strategies::picked))]
pub fn strategy_of(exp: &[u8]) -> Strategy
    requires { length exp.now ≤ 256 }
    ensures { result ≡ picked exp.now }
{
    let n = exp.len();
    if n <= 1 {
        return Strategy::D15;
    }
    let bins = (n - 1) as u32;
    if cost_of::<3>(exp) * 100 / bins <= 50 {
        return Strategy::D45;
    }
    if cost_of::<1>(exp) * 100 / bins <= 75 {
        return Strategy::D25;
    }
    Strategy::D15
}

#[tactic(auto, unfolding(crate::specs::Strategies::pick_answer))]
pub fn pick_strategy_for_block(exp: &[u8], end: usize) -> Result<Strategy, Refusal>
    ensures { result ≡ pick_answer exp.now end }
{
    if 256 < end {
        return Err(Refusal::OutOfRange);
    }
    if 256 < exp.len() {
        return Err(Refusal::WrongLength);
    }
    if exp.len() < end {
        return Err(Refusal::WrongLength);
    }
    Ok(strategy_of(&exp[0..end]))
}
