// Groups of three differences (A/52 7.1.3).
ghost use Rattle.std.specs.Prelude.{◌≡◌, true, ◌+◌, ◌-◌, ◌*◌, ◌≤◌, ◌<◌, length, get_or, take};
ghost use Rattle.elements.specs.Strategy.{grpsize};
ghost use Rattle.shaping.specs.Greatest.{Shaped};
ghost use Rattle.exponents.specs.Groups.{delta, group, group_at, group_count};
ghost use Rattle.exponents.specs.Inner.{Near, difference_at};

use elements::Strategy;

// How many groups follow the absolute value, at the ends that a sheet may hold. By any number of bins: it is public, and takes any.
pub fn group_count(end: usize, grpsize: usize) -> usize
    requires { (0 < end) × (end ≤ 253) }
    ensures { (result ≡ group_count end grpsize) × (result ≤ 84) }
{
    shaping::groups_of(end, grpsize)
}

// The same of a set with this strategy.
pub(crate) fn set_groups(end: usize, strategy: Strategy) -> usize
    requires { (0 < end) × (end ≤ 253) }
    ensures { (result ≡ group_count end (grpsize strategy)) × (result ≤ 84) }
{
    group_count(end, strategy.grpsize())
}

// The difference, plus 2, from the bin before to the bin `p`, where a span begins; behind the last bin a pad, which is a zero difference.
fn difference_at(exp: &[u8], p: usize) -> u32
    requires after_first { 0 < p }
    requires near { p < length exp.now → Near (get_or exp.now (p - 1) 0) (get_or exp.now p 0) }
    ensures { (result ≡ difference_at exp.now p) × (result ≤ 4) }
{
    if exp.len() <= p {
        return 2;
    }
    u32::from(exp[p] + 2 - exp[p - 1])
}

// The group of the spans b, c and d after a, none of them a pad:
// 25 * (b + 2 - a) + 5 * (c + 2 - b) + (d + 2 - c), with each exponent counted once.
fn whole_group(a: u8, b: u8, c: u8, d: u8) -> u32
    requires { Near a b × Near b c × Near c d }
    ensures { result ≡ group (delta a b) (delta b c) (delta c d) }
{
    62 + 20 * u32::from(b) + 4 * u32::from(c) + u32::from(d) - 25 * u32::from(a)
}

// The group number `i`: the three spans from number 3 * i on. Only the last group may have pads.
pub fn group_at(exp: &[u8], end: usize, strategy: Strategy, i: usize) -> u32
    requires in_bounds { (end ≤ length exp.now) × (end ≤ 253) × (i < 84) × (1 + 3 * i * grpsize strategy < end) }
    requires shaped { Shaped (grpsize strategy - 1) (take end exp.now) }
    ensures { result ≡ group_at (grpsize strategy) (take end exp.now) (3 * i) }
{
    let grpsize = strategy.grpsize();
    let p = 1 + 3 * i * grpsize;
    let last = p + 2 * grpsize;
    if last < end {
        return whole_group(exp[p - 1], exp[p], exp[p + grpsize], exp[last]);
    }
    let set = &exp[0..end];
    25 * difference_at(set, p) + 5 * difference_at(set, p + grpsize) + difference_at(set, last)
}
