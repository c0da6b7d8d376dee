// The reader of an exponent set.
ghost use Rattle.std.specs.Prelude.{◌≡◌, true, ◌+◌, ◌-◌, ◌*◌, ◌^◌, ◌≤◌, ◌<◌, length, take, drop, replicate, IfSome, MatchResult};
ghost use Rattle.bits.specs.Field.{bits_of};
ghost use Rattle.bits.specs.Read.{from as bitsFrom, Came};
ghost use Rattle.elements.specs.Strategy.{grpsize};
ghost use Rattle.sheet.specs.Ranges.{legal_end};
ghost use Rattle.exponents.specs.Reading.{with_span, with_group, read_groups, read_exponents};
ghost use Rattle.exponents.specs.Inner.{reached};
ghost use Rattle.exponents.specs.Calls.{exponents_read, exponents_left};

use crate::groups::set_groups;
use crate::limits::set_strategy;
use bits::{Fault, Refusal};
use elements::Strategy;

// One difference (plus 2) after the first `p` exponents: stores the next span and answers how many exponents there are now,
// or none where the exponent is outside 0..24.
fn place_span(exp: &mut [u8], p: usize, strategy: Strategy, d: u32) -> Option<usize>
    requires p_nonzero { (0 < p) × (p ≤ length exp.old) × (length exp.old ≤ 256) }
    requires d_bound { d ≤ 4 }
    ensures exp_value { with_span (length exp.old) (grpsize strategy) d (take p exp.old) ≡ reached result exp.new }
    ensures bounds { IfSome result (λ q. (0 < q) × (q ≤ length exp.old)) }
{
    let end = exp.len();
    if p == end {
        return Some(p);
    }
    let sum = u32::from(exp[p - 1]) + d;
    if sum < 2 {
        return None;
    }
    if 26 < sum {
        return None;
    }
    let to = end.min(p + strategy.grpsize());
    exp[p..to].fill((sum - 2) as u8);
    Some(to)
}

// A group's value after the first `p` exponents; none where it is above 124 too.
fn place_group(exp: &mut [u8], p: usize, strategy: Strategy, v: u32) -> Option<usize>
    requires p_nonzero { (0 < p) × (p ≤ length exp.old) × (length exp.old ≤ 256) }
    ensures exp_value { with_group (length exp.old) (grpsize strategy) v (take p exp.old) ≡ reached result exp.new }
    ensures bounds { IfSome result (λ q. (0 < q) × (q ≤ length exp.old)) }
{
    if 124 < v {
        return None;
    }
    let a = place_span(exp, p, strategy, v / 25)?;
    let b = place_span(exp, a, strategy, v % 25 / 5)?;
    place_span(exp, b, strategy, v % 5)
}

// The groups at `pos`, after the absolute value `first`; the slice holds the bins below end.
fn get_groups(
    input: &[u8],
    pos: usize,
    first: u32,
    strategy: Strategy,
    exp: &mut [u8],
) -> Result<usize, Fault>
    requires pos_bound { (pos ≤ 8 * length input.now) × (pos < 2 ^ 33) × (first ≤ 15) }
    requires exp_value { legal_end (length exp.old) ≡ true }
    ensures came { Came (read_groups (length exp.old) (grpsize strategy) first (bitsFrom pos (bits_of input.now))) exp.new (bits_of input.now) pos result }
    ensures pos_bound_2 { MatchResult result (λ p. p ≤ pos + 588) (λ f. f.pos ≤ pos + 588) }
{
    let groups = set_groups(exp.len(), strategy);
    exp[0] = first as u8;
    let mut p = 1;
    for i in 0..groups {
        let at = pos + 7 * i;
        let past = Fault {
            refusal: Refusal::PastInput,
            pos: at,
        };
        let v = bits::get(input, at, 7).ok_or(past)?;
        let bad = Fault {
            refusal: Refusal::BadGroup,
            pos: at + 7,
        };
        p = place_group(exp, p, strategy, v).ok_or(bad)?;
    }
    Ok(pos + 7 * groups)
}

// The set at `pos`; the slice holds the bins below end.
fn get_set(input: &[u8], pos: usize, strategy: Strategy, exp: &mut [u8]) -> Result<usize, Fault>
    requires pos_bound { (pos ≤ 8 * length input.now) × (pos < 2 ^ 32) }
    requires exp_value { legal_end (length exp.old) ≡ true }
    ensures came { Came (read_exponents (length exp.old) (grpsize strategy) (bitsFrom pos (bits_of input.now))) exp.new (bits_of input.now) pos result }
    ensures pos_bound_2 { MatchResult result (λ p. p ≤ pos + 592) (λ f. f.pos ≤ pos + 592) }
{
    let past = Fault {
        refusal: Refusal::PastInput,
        pos,
    };
    let first = bits::get(input, pos, 4).ok_or(past)?;
    get_groups(input, pos + 4, first, strategy, exp)
}

// The set at `pos`: the exponents below end, and 0 from end on.
pub fn get_exponents(
    input: &[u8],
    pos: usize,
    end: usize,
    strategy: Strategy,
    exp: &mut [u8],
) -> Result<usize, Fault>
    requires pos_bound { (pos ≤ 8 * length input.now) × (pos < 2 ^ 32) }
    requires end_value { (legal_end end ≡ true) × (end ≤ length exp.old) }
    ensures came { Came (read_exponents end (grpsize strategy) (bitsFrom pos (bits_of input.now))) (take end exp.new) (bits_of input.now) pos result }
    ensures exp_after { drop end exp.new ≡ replicate (length exp.old - end) 0 }
    ensures pos_bound_2 { MatchResult result (λ p. p ≤ pos + 592) (λ f. f.pos ≤ pos + 592) }
{
    let n = exp.len();
    let r = get_set(input, pos, strategy, &mut exp[0..end]);
    exp[end..n].fill(0);
    r
}

#[tactic(auto, unfolding(crate::specs::Calls::exponents_read, crate::specs::Calls::exponents_left))]
pub fn read_exponents_grouped(
    input: &[u8],
    end: usize,
    grpsize: usize,
    exp: &mut [u8],
) -> Result<u32, Refusal>
    ensures value { result ≡ exponents_read (bits_of input.now) end grpsize (length exp.old) }
    ensures exp_after { exp.new ≡ exponents_left (bits_of input.now) end grpsize exp.old }
{
    let strategy = set_strategy(end, grpsize, exp.len())?;
    let r = get_exponents(input, 0, end, strategy, exp);
    match r {
        Ok(bits) => Ok(bits as u32),
        Err(fault) => {
            exp.fill(0);
            Err(fault.refusal)
        }
    }
}
