// `quantise_exponents_to_grpsize`: exponents shared by spans, in place (document 02, W4; A/52 7.1.3). A span of h + 1 bins is named by h. The
// coupling channel of W5 has no limit of 15 and spans that start at its first bin: so `limit`, and `k`, how many bins more the first span has.
ghost use Rattle.std.specs.Prelude.{◌≡◌, ◌+◌, ◌-◌, ◌*◌, ◌<◌, ◌≤◌, length, take, drop, get_or};
ghost use Rattle.elements.specs.Strategy.{grpsize};
ghost use Rattle.shaping.specs.D15.{limited};
ghost use Rattle.shaping.specs.Spans.{least, span_leasts, spread, shared, spanned};
ghost use Rattle.shaping.specs.Inner.{strategy_for};
ghost use Rattle.shaping.specs.Passes.{is_span, quantise_check, quantised};

use crate::d15::shape;
use bits::Refusal;
use elements::Strategy;

// The least of exp[i] and the h entries after it, or as many as there are.
pub fn least_from(exp: &[u8], i: usize, h: usize) -> u8
    requires { i < length exp.now }
    ensures { result ≡ least h (get_or exp.now i 0) (drop (i + 1) exp.now) }
{
    let mut m = exp[i];
    // up to a constant h, with the test inside, no loop is left
    for j in 0..h {
        if exp.len() <= i + 1 + j {
            return m;
        }
        m = m.min(exp[i + 1 + j]);
    }
    m
}

// The least of each span, and how many there are.
fn gather<const H: usize>(exp: &[u8], k: usize, to: &mut [u8]) -> usize
    requires exp_nonzero { (0 < length exp.now) × (length exp.now ≤ 256) }
    requires to_len { (length to.old ≡ 256) × (H ≤ 255) × (k ≤ 255) }
    ensures { (result ≤ 256) × (take result to.new ≡ span_leasts H k exp.now) }
{
    to[0] = least_from(exp, 0, k);
    let mut c = 1;
    for i in (k + 1..exp.len()).step_by(H + 1) {
        to[c] = least_from(exp, i, H);
        c += 1;
    }
    c
}

// Each value over its span.
fn spread_out<const H: usize>(values: &[u8], k: usize, exp: &mut [u8])
    requires k_in_bounds { length exp.old + (H - k) ≤ length values.now * (H + 1) }
    requires exp_len_bound { (length exp.old ≤ 256) × (H ≤ 255) × (k ≤ H) }
    ensures { exp.new ≡ spread H k (length exp.old) values.now }
{
    for i in 0..exp.len() {
        exp[i] = values[(i + (H - k)) / (H + 1)];
    }
}

// The values shaped as D15 is, then each over its span.
fn shape_spans<const H: usize>(values: &mut [u8], limit: u8, k: usize, exp: &mut [u8])
    requires k_in_bounds { length exp.old + (H - k) ≤ length values.old * (H + 1) }
    requires exp_len_bound { (length exp.old ≤ 256) × (H ≤ 255) × (k ≤ H) }
    requires values_len_bound { (length values.old ≤ 256) × (15 ≤ limit) × (limit ≤ 24) }
    ensures { exp.new ≡ spread H k (length exp.old) (limited limit values.old) }
{
    shape(values, limit);
    spread_out::<H>(values, k, exp);
}

// Shared by spans, the first value at most its limit.
fn share<const H: usize>(exp: &mut [u8], limit: u8, k: usize)
    requires exp_nonzero { (0 < length exp.old) × (length exp.old ≤ 256) }
    requires h_bound { (H ≤ 255) × (k ≤ H) }
    requires le_limit { (15 ≤ limit) × (limit ≤ 24) }
    ensures { exp.new ≡ shared limit H k exp.old }
{
    let mut values = [0u8; 256];
    let c = gather::<H>(exp, k, &mut values);
    shape_spans::<H>(&mut values[0..c], limit, k, exp);
}

// A channel's: bin 0 stands alone and is at most 15, which 4 bits hold. One bin alone stays.
fn share_channel<const H: usize>(exp: &mut [u8])
    requires { (0 < H) × (H ≤ 255) × (length exp.old ≤ 256) }
    ensures { exp.new ≡ spanned H exp.old }
{
    if exp.len() < 2 {
        return;
    }
    share::<H>(exp, 15, 0);
}

// The same for a strategy: a span of 1 stays.
fn share_for(exp: &mut [u8], strategy: Strategy)
    requires { length exp.old ≤ 256 }
    ensures { exp.new ≡ spanned (grpsize strategy - 1) exp.old }
{
    match strategy {
        Strategy::D15 => {}
        Strategy::D25 => share_channel::<1>(exp),
        Strategy::D45 => share_channel::<3>(exp),
    }
}

// A strategy's span.
pub fn is_span(grpsize: usize) -> bool
    ensures { result ≡ is_span grpsize }
{
    (grpsize == 1) | ((grpsize == 2) | (grpsize == 4))
}

// The strategy of a span, or why the call is turned back.
pub fn strategy_for(span: usize) -> Result<Strategy, Refusal>
    ensures { result ≡ strategy_for span }
{
    Strategy::try_from(span).map_err(|_| Refusal::OutOfRange)
}

#[tactic(auto, unfolding(crate::specs::Passes::quantised))]
pub fn quantise_exponents_to_grpsize(exp: &mut [u8], grpsize: usize) -> Result<(), Refusal>
    ensures value { result ≡ quantise_check grpsize exp.old }
    ensures exp_after { exp.new ≡ quantised grpsize exp.old }
{
    let strategy = strategy_for(grpsize)?;
    if 256 < exp.len() {
        return Err(Refusal::WrongLength);
    }
    share_for(exp, strategy);
    Ok(())
}
