// What the exponent writer and reader take.
ghost use Rattle.std.specs.Prelude.{◌≡◌, MatchResult};
ghost use Rattle.exponents.specs.Calls.{in_range, right_length, set_check};
ghost use Rattle.exponents.specs.Inner.{Taken};

use bits::Refusal;
use elements::Strategy;

pub fn in_range(end: usize, grpsize: usize) -> bool
    ensures { result ≡ in_range end grpsize }
{
    sheet::legal_end(end) & shaping::is_span(grpsize)
}

// A slice of at most 256 entries that reaches to end.
pub fn right_length(end: usize, entries: usize) -> bool
    ensures { result ≡ right_length end entries }
{
    (entries <= 256) & (end <= entries)
}

// The strategy of a set that the calls take, or why they are turned back.
pub(crate) fn set_strategy(end: usize, span: usize, entries: usize) -> Result<Strategy, Refusal>
    ensures { MatchResult result (λ strategy. Taken end span entries strategy) (λ k. set_check end span entries ≡ Err k) }
{
    if !sheet::legal_end(end) {
        return Err(Refusal::OutOfRange);
    }
    let strategy = shaping::strategy_for(span)?;
    if !right_length(end, entries) {
        return Err(Refusal::WrongLength);
    }
    Ok(strategy)
}
