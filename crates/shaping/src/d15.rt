// `preprocess_d15`: exponents shaped for D15 in place (document 01, "Exponents"; A/52 7.1.3).
ghost use Rattle.std.specs.Prelude.{◌≡◌, ◌-◌, ◌<◌, ◌≤◌, length};
ghost use Rattle.shaping.specs.D15.{limited};
ghost use Rattle.shaping.specs.Passes.{preprocess_check, preprocessed};
ghost use Rattle.shaping.specs.Reach.{ascended, descended};

use crate::reach::reach_all;
use bits::Refusal;

// From the last bin on: each at most 24, and at most 2 above the one behind it.
fn descend(exp: &mut [u8])
    ensures { exp.new ≡ descended exp.old }
{
    let mut v = 24u8;
    for i in (0..exp.len()).rev() {
        v = exp[i].min(24).min(v + 2);
        exp[i] = v;
    }
}

// From the first bin on: each at most 2 above the one before it, and the first at most its limit.
fn ascend(exp: &mut [u8], limit: u8)
    requires exp_len_bound { length exp.old < 32 }
    requires le_limit { (2 ≤ limit) × (limit ≤ 24) }
    ensures { exp.new ≡ ascended (limit - 2) exp.old }
{
    let mut v = limit - 2;
    for i in 0..exp.len() {
        v = exp[i].min(v + 2);
        exp[i] = v;
    }
}

// Bin after bin, which is quickest where there are few.
fn pass_by_pass(exp: &mut [u8], limit: u8)
    requires exp_len_bound { length exp.old < 32 }
    requires le_limit { (2 ≤ limit) × (limit ≤ 24) }
    ensures { exp.new ≡ limited limit exp.old }
{
    descend(exp);
    ascend(exp, limit);
}

// So many bins are few: two vectors.
const FEW: usize = 32;

// Shaped for D15, the first bin at most its limit: 15, which 4 bits hold, or 24.
pub(crate) fn shape(exp: &mut [u8], limit: u8)
    requires exp_len_bound { length exp.old ≤ 256 }
    requires le_limit { (15 ≤ limit) × (limit ≤ 24) }
    ensures { exp.new ≡ limited limit exp.old }
{
    if exp.len() < FEW {
        pass_by_pass(exp, limit);
        return;
    }
    reach_all(exp, limit);
}

#[tactic(auto, unfolding(crate::specs::Passes::preprocessed))]
pub fn preprocess_d15(exp: &mut [u8]) -> Result<(), Refusal>
    ensures value { result ≡ preprocess_check exp.old }
    ensures exp_after { exp.new ≡ preprocessed exp.old }
{
    if 256 < exp.len() {
        return Err(Refusal::WrongLength);
    }
    shape(exp, 15);
    Ok(())
}
