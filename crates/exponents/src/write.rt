// The writer of an exponent set.
ghost use Rattle.std.specs.Prelude.{◌≡◌, true, ◌+◌, ◌-◌, ◌*◌, ◌≤◌, length, take};
ghost use Rattle.bits.specs.Answer.{output_of};
ghost use Rattle.bits.specs.Write.{Ready, Put, place};
ghost use Rattle.elements.specs.Strategy.{grpsize};
ghost use Rattle.shaping.specs.Greatest.{Shaped};
ghost use Rattle.sheet.specs.Ranges.{legal_end};
ghost use Rattle.exponents.specs.Groups.{group_count, exponent_bits};
ghost use Rattle.exponents.specs.Calls.{exponents_written};

use crate::groups::{group_at, set_groups};
use crate::limits::set_strategy;
use bits::{Refusal, Writer};
use elements::Strategy;
use shaping::is_shaped;

// The set of the exponents below end: the absolute value, then the groups.
pub fn put_exponents(
    out: &mut [u8],
    w: Writer,
    exp: &[u8],
    end: usize,
    strategy: Strategy,
) -> Writer
    requires end_value { (legal_end end ≡ true) × (end ≤ length exp.now) }
    requires shaped { Shaped (grpsize strategy - 1) (take end exp.now) }
    requires ready { Ready w (length out.old) (4 + 7 * group_count end (grpsize strategy)) }
    ensures put { Put out.old w (exponent_bits (grpsize strategy) (take end exp.now)) out.new result }
    ensures result_value { place result ≡ place w + (4 + 7 * group_count end (grpsize strategy)) }
{
    let groups = set_groups(end, strategy);
    let mut w = bits::put(out, w, u32::from(exp[0]), 4);
    for i in 0..groups {
        w = bits::put(out, w, group_at(exp, end, strategy, i), 7);
    }
    w
}

#[tactic(auto, unfolding(crate::specs::Calls::exponents_written, bits::specs::Answer::output_of))]
pub fn write_exponents_grouped(
    out: &mut [u8],
    exp: &[u8],
    end: usize,
    grpsize: usize,
) -> Result<u32, Refusal>
    ensures value { result ≡ exponents_written exp.now end grpsize (length out.old) }
    ensures out_after { out.new ≡ output_of result (exponent_bits grpsize (take end exp.now)) out.old }
{
    let strategy = set_strategy(end, grpsize, exp.len())?;
    if !is_shaped(&exp[0..end], strategy.grpsize()) {
        return Err(Refusal::BadExponent);
    }
    let count = 4 + 7 * set_groups(end, strategy);
    if out.len() < count.div_ceil(8) {
        return Err(Refusal::NoRoom);
    }
    let w = put_exponents(out, bits::start(), exp, end, strategy);
    bits::finish(out, w);
    Ok(count as u32)
}
