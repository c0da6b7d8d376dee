// The strategies of a frame's channels by block (document 01, `select_exp_strategies_per_end`).
ghost use Rattle.std.specs.Prelude.{◌≡◌, ◌<◌, length};
ghost use Rattle.shaping.specs.Strategies.{picked, ends_held, select_check, block_exponents, strategy_row, selected};
ghost use Rattle.shaping.specs.Inner.{Selectable};

use crate::strategies::strategy_of;
use bits::Refusal;
use elements::{ExponentSet, Strategy};

// Every end is at most 256.
fn ends_held(ends: &[u16]) -> bool
    ensures { result ≡ ends_held ends.now }
{
    ends.iter().all(|&end| end <= 256)
}

// What `select_exp_strategies_per_end` asks of its arguments.
fn select_check(exps: &[u8], ends: &[u16]) -> Result<(), Refusal>
    ensures { result ≡ select_check exps.now ends.now }
{
    if !((1 <= ends.len()) & ((ends.len() <= 6) & ends_held(ends))) {
        return Err(Refusal::OutOfRange);
    }
    if exps.len() != 6 * ends.len() * 256 {
        return Err(Refusal::WrongLength);
    }
    Ok(())
}

// The strategy picked for a channel that is there, in a block.
fn block_strategy(exps: &[u8], ends: &[u16], block: usize, channel: usize) -> Strategy
    requires selectable { Selectable exps.now ends.now }
    requires block_bound { (block < 6) × (channel < length ends.now) }
    ensures { result ≡ picked (block_exponents exps.now ends.now block channel) }
{
    let at = 256 * (ends.len() * block + channel);
    let after = at + 256;
    let part = &exps[at..after];
    let end = usize::from(ends[channel]);
    strategy_of(&part[0..end])
}

fn strategy_row(exps: &[u8], ends: &[u16], channel: usize) -> [ExponentSet; 6]
    requires { Selectable exps.now ends.now }
    ensures { result ≡ strategy_row exps.now ends.now channel }
{
    if channel < ends.len() {
        let first = block_strategy(exps, ends, 0, channel);
        let second = block_strategy(exps, ends, 3, channel);
        return [
            ExponentSet::New(first),
            ExponentSet::Reuse,
            ExponentSet::Reuse,
            ExponentSet::New(second),
            ExponentSet::Reuse,
            ExponentSet::Reuse,
        ];
    }
    [ExponentSet::Reuse; 6]
}

// The strategies of six channels by six blocks.
#[tactic(auto, unfolding(crate::specs::Strategies::selected))]
pub fn select_exp_strategies_per_end(
    exps: &[u8],
    ends: &[u16],
) -> Result<[[ExponentSet; 6]; 6], Refusal>
    ensures { result ≡ selected exps.now ends.now }
{
    select_check(exps, ends)?;
    Ok(std::array::from_fn(
        |channel|
            requires { Selectable exps.now ends.now }
            ensures { result ≡ strategy_row exps.entry.now ends.entry.now channel }
        { strategy_row(exps, ends, channel) },
    ))
}
