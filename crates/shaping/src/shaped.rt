// Whether exponents are shaped for a strategy (document 01, "Exponents").
ghost use Rattle.std.specs.Prelude.{◌≡◌, ◌&&◌, ◌||◌, ◌+◌, ◌-◌, ◌%◌, ◌≤◌, min, leb, eqb};
ghost use Rattle.shaping.specs.Shaped.{shaped_for};

// Which bin of its span the bin `i` is: 0 where a span begins. Held to a byte.
fn place_in_span(i: usize, grpsize: usize) -> u8
    requires { (1 ≤ i) × (1 ≤ grpsize) }
    ensures { result ≡ min ((i - 1) % grpsize) 255 }
{
    ((i - 1) % grpsize).min(255) as u8
}

// Whether x may stand after p: within 2 of it and at most 24, and the same unless a span begins there (`place` is 0).
// The smaller of two numbers is 0 where one of them is. There is no branch, so that the compiler can test many bins at once.
fn may_follow(p: u8, x: u8, place: u8) -> bool
    ensures { result ≡ (leb x (p + 2) && (leb p (x + 2) && (leb x 24 && (eqb place 0 || eqb x p)))) }
{
    let step = p.abs_diff(x);
    (step <= 2) & ((x <= 24) & (step.min(place) == 0))
}

// What `is_shaped` answers. Every bin is tested and none ends the loop, for the same reason. Inlined where the span is written out, it has no division.
#[inline(always)]
fn bins_shaped(exp: &[u8], span: usize) -> bool
    requires { 1 ≤ span }
    ensures { result ≡ shaped_for (span - 1) exp.now }
{
    if exp.is_empty() {
        return true;
    }
    let mut ok = exp[0] <= 15;
    for i in 1..exp.len() {
        ok &= may_follow(exp[i - 1], exp[i], place_in_span(i, span));
    }
    ok
}

// Shaped for the strategy whose span is `grpsize`. Each strategy has a loop of its own.
pub fn is_shaped(exp: &[u8], grpsize: usize) -> bool
    requires { 1 ≤ grpsize }
    ensures { result ≡ shaped_for (grpsize - 1) exp.now }
{
    match grpsize {
        1 => bins_shaped(exp, 1),
        2 => bins_shaped(exp, 2),
        4 => bins_shaped(exp, 4),
        _ => bins_shaped(exp, grpsize),
    }
}
