// The exponents of a case: by a rule, with one of them changed.
ghost use Rattle.std.specs.Prelude.{◌<◌};

#[derive(Clone, Copy)]
pub enum Rule {
    // One value in every bin.
    Flat(u8),
    // One bin 0, all others 24.
    Loud(usize),
    // 4 in the bins below one, 12 from it on.
    Step(usize),
    // `preprocess_d15` of one value in every bin.
    Shaped(u8),
    // From 24 down to 0 and up again by steps of 2, from such a place on: bands of one bin differ by 256.
    Slope(u8),
    // All over 0..24, from such a one on.
    Spread(u8),
}

// `changed`: one bin, and its exponent.
#[derive(Clone, Copy)]
pub struct Exponents {
    pub rule: Rule,
    pub changed: Option<(usize, u8)>,
}

impl From<Rule> for Exponents {
    fn from(rule: Rule) -> Self {
        Exponents {
            rule,
            changed: None,
        }
    }
}

// One value in every bin but one.
pub(crate) fn flat_but(value: u8, at: usize, other: u8) -> Exponents {
    Exponents {
        rule: Rule::Flat(value),
        changed: Some((at, other)),
    }
}

fn ruled(rule: Rule, i: usize) -> usize
    ensures { result < 256 }
{
    let bin = i % 256;
    match rule {
        Rule::Flat(value) => usize::from(value),
        Rule::Loud(at) => { if i == at { 0 } else { 24 } }
        Rule::Step(at) => { if i < at { 4 } else { 12 } }
        Rule::Shaped(value) => usize::from(value).min(15 + 2 * bin),
        Rule::Slope(start) => ((2 * bin + usize::from(start)) % 48).abs_diff(24),
        Rule::Spread(start) => (7 * bin + 11 * (bin / 5) + usize::from(start)) % 25,
    }
}

fn exponent_at(exponents: Exponents, i: usize) -> u8 {
    match exponents.changed {
        Some((at, other)) if i == at => other,
        _ => ruled(exponents.rule, i) as u8,
    }
}

pub(crate) fn fill(exp: &mut [u8], exponents: Exponents) {
    for i in 0..exp.len() {
        exp[i] = exponent_at(exponents, i);
    }
}
