// D15 shaping of many bins at once: each bin gets the least of what the bins around it allow, in two loops without a branch and with no
// turn that waits for the one before it, which can be made of vectors (specs/Reach).
ghost use Rattle.std.specs.Prelude.{◌≡◌, ℕ, ◌+◌, ◌-◌, ◌<◌, ◌≤◌, min, length, get_or, take};
ghost use Rattle.bits.specs.Parts.{tab};
ghost use Rattle.shaping.specs.D15.{limited};
ghost use Rattle.shaping.specs.Reach.{topped, free, padded, near_least, far_least};

// None above what its bin may hold: its limit in the first, 24 in the others.
fn hold_tops(exp: &[u8], limit: u8, to: &mut [u8])
    requires exp_nonzero { (0 < length exp.now) × (length to.old ≡ length exp.now) }
    requires le_limit { (15 ≤ limit) × (limit ≤ 24) }
    ensures { to.new ≡ topped limit exp.now }
{
    to[0] = exp[0].min(limit);
    for i in 1..to.len() {
        to[i] = exp[i].min(24);
    }
}

// What two bins allow one that is `rise` / 2 bins away from both.
fn either(a: u8, b: u8, rise: u8) -> u8
    requires { (a ≤ 24) × (rise ≤ 16) }
    ensures { result ≡ min a b + rise }
{
    a.min(b) + rise
}

// Each bin gets what `least` finds for it.
fn each_least<F: Fn(usize) -> u8>(to: &mut [u8], least: F)
    requires { (i : ℕ) → i < length to.old → F.pre least i }
    ensures same_length { length to.new ≡ length to.old }
    ensures found { (i : ℕ) → i < length to.old → F.post least i (get_or to.new i 0) }
{
    for i in 0..to.len() {
        to[i] = least(i);
    }
}

fn near_least(from: &[u8], i: usize) -> u8
    requires i_in_bounds { i + 6 < length from.now }
    requires by_index { (k : ℕ) → get_or from.now k 0 ≤ 24 }
    ensures { result ≡ near_least from.now i }
{
    let one = either(from[i + 2], from[i + 4], 2);
    let two = either(from[i + 1], from[i + 5], 4);
    let three = either(from[i], from[i + 6], 6);
    from[i + 3].min(one).min(two.min(three))
}

fn reach_near(from: &[u8], to: &mut [u8])
    requires from_len { length from.now ≡ length to.old + 6 }
    requires by_index { (k : ℕ) → get_or from.now k 0 ≤ 24 }
    ensures { to.new ≡ tab (length to.old) (near_least from.now) }
{
    each_least(to, |i| near_least(from, i));
}

fn far_least(from: &[u8], i: usize) -> u8
    requires i_in_bounds { i + 16 < length from.now }
    requires by_index { (k : ℕ) → get_or from.now k 0 ≤ 24 }
    ensures { result ≡ far_least from.now i }
{
    let four = either(from[i + 4], from[i + 12], 8);
    let eight = either(from[i], from[i + 16], 16);
    from[i + 8].min(four.min(eight))
}

fn reach_far(from: &[u8], to: &mut [u8])
    requires from_len { length from.now ≡ length to.old + 16 }
    requires by_index { (k : ℕ) → get_or from.now k 0 ≤ 24 }
    ensures { to.new ≡ tab (length to.old) (far_least from.now) }
{
    each_least(to, |i| far_least(from, i));
}

// The exponents among three bins on either side that allow any exponent.
fn pad_tops(exp: &[u8], limit: u8, tops: &mut [u8])
    requires le_limit { (15 ≤ limit) × (limit ≤ 24) }
    requires exp_nonzero { (0 < length exp.now) × (length exp.now ≤ 256) }
    requires tops_len { (length tops.old ≡ 262) × (tops.old ≡ free 262) }
    ensures { take (6 + length exp.now) tops.new ≡ padded 3 (topped limit exp.now) }
{
    let end = 3 + exp.len();
    hold_tops(exp, limit, &mut tops[3..end]);
}

// What `reach_near` leaves, among eight such bins on either side.
fn pad_near(from: &[u8], near: &mut [u8])
    requires in_bounds { (6 ≤ length from.now) × (length from.now ≤ 262) }
    requires near_len { (length near.old ≡ 272) × (near.old ≡ free 272) }
    requires by_index { (k : ℕ) → get_or from.now k 0 ≤ 24 }
    ensures { take (10 + length from.now) near.new ≡ padded 8 (tab (length from.now - 6) (near_least from.now)) }
{
    let end = 2 + from.len();
    reach_near(from, &mut near[8..end]);
}

// The exponents as the two passes of D15 leave them.
pub(crate) fn reach_all(exp: &mut [u8], limit: u8)
    requires exp_nonzero { (0 < length exp.old) × (length exp.old ≤ 256) }
    requires le_limit { (15 ≤ limit) × (limit ≤ 24) }
    ensures { exp.new ≡ limited limit exp.old }
{
    let mut tops = [24u8; 262];
    pad_tops(exp, limit, &mut tops);
    let mut near = [24u8; 272];
    let tops_end = 6 + exp.len();
    pad_near(&tops[0..tops_end], &mut near);
    let near_end = 16 + exp.len();
    reach_far(&near[0..near_end], exp);
}
