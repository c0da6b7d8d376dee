// The inputs: a buffer filled by a rule.
use std::fmt;

// Which exponents a buffer holds.
#[derive(Clone, Copy)]
pub enum Rule {
    // All 255.
    High,
    // All 0.
    Low,
    // From 24 down, again and again.
    Falling,
    // All over the bytes.
    Spread,
}

// A case is printed with its rule's number.
impl fmt::Display for Rule {
    fn fmt<W: fmt::Write>(&self, f: &mut fmt::Formatter<W>) -> fmt::Result {
        f.write_str(match self {
            Rule::High => "0",
            Rule::Low => "1",
            Rule::Falling => "2",
            Rule::Spread => "3",
        })
    }
}

pub(crate) const RULES: [Rule; 4] = [Rule::High, Rule::Low, Rule::Falling, Rule::Spread];

fn ruled(rule: Rule, i: usize) -> u8 {
    match rule {
        Rule::High => 255,
        Rule::Low => 0,
        Rule::Falling => (24 - i % 25) as u8,
        Rule::Spread => (i % 256 * 37 % 256) as u8,
    }
}

pub(crate) fn fill(exp: &mut [u8], rule: Rule) {
    for (i, entry) in exp.iter_mut().enumerate() {
        *entry = ruled(rule, i);
    }
}
