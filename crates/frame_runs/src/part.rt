// A channel's part of a block that begins a run: the least exponents of the run's blocks, shaped.
ghost use Rattle.std.specs.Prelude.{◌≡◌, true, ◌-◌, ◌<◌, ◌≤◌, length};
ghost use Rattle.sheet.specs.Settings.{channels, end_at};
ghost use Rattle.frame_runs.specs.Finite.{finite_part};
ghost use Rattle.frame_runs.specs.Runs.{exponents_of, least_of, least_from, run_least, run_exponents, run_part};
ghost use Rattle.frame_runs.specs.Carried.{next_part};

use crate::below::below_end;
use crate::whole::Coefficients;
use elements::{ExponentSet, Strategy};

// The exponents of a block's coefficients.
fn extract_part(coeffs: &[f32], part: &mut [u8])
    requires coeffs_value { finite_part coeffs.now ≡ true }
    requires part_len { length part.old ≡ length coeffs.now }
    ensures { part.new ≡ exponents_of coeffs.now }
{
    for i in 0..part.len() {
        part[i] = shaping::exponent_of(coeffs[i]);
    }
}

// The least of those so far and those of one more block.
fn lower_part(coeffs: &[f32], part: &mut [u8])
    requires coeffs_value { finite_part coeffs.now ≡ true }
    requires part_len { length part.old ≡ length coeffs.now }
    ensures { part.new ≡ least_of part.old (exponents_of coeffs.now) }
{
    for i in 0..part.len() {
        part[i] = part[i].min(shaping::exponent_of(coeffs[i]));
    }
}

// The least of those so far and those of the reuse blocks from `first` on.
fn lower_by_reuse(coeffs: &Coefficients<'_>, c: usize, first: usize, part: &mut [u8])
    requires { (c < channels coeffs.now.track.now.settings) × (first ≤ 6) × (length part.old ≡ end_at coeffs.now.track.now.settings c) }
    ensures { part.new ≡ least_from coeffs.now.track.now.settings coeffs.now.values.now c (6 - first) first part.old }
{
    for b in first..6 {
        if let ExponentSet::New(_) = coeffs.track.set_at(b, c) {
            return;
        }
        lower_part(below_end(coeffs.track, coeffs.values, b, c), part);
    }
}

// The least exponents of the run that begins with block b.
fn run_least(coeffs: &Coefficients<'_>, b: usize, c: usize, part: &mut [u8])
    requires { (b < 6) × (c < channels coeffs.now.track.now.settings) × (length part.old ≡ end_at coeffs.now.track.now.settings c) }
    ensures { part.new ≡ run_least coeffs.now.track.now.settings coeffs.now.values.now b c }
{
    extract_part(below_end(coeffs.track, coeffs.values, b, c), part);
    lower_by_reuse(coeffs, c, b + 1, part);
}

// They are shaped: `preprocess_d15`, then the strategy's span. A part has at most 253 bins, so neither refuses.
fn run_exponents(coeffs: &Coefficients<'_>, b: usize, c: usize, strategy: Strategy, part: &mut [u8])
    requires { (b < 6) × (c < channels coeffs.now.track.now.settings) × (length part.old ≡ end_at coeffs.now.track.now.settings c) }
    ensures { part.new ≡ run_exponents coeffs.now.track.now.settings coeffs.now.values.now b c strategy }
{
    run_least(coeffs, b, c, part);
    shaping::preprocess_d15(part).unwrap();
    shaping::quantise_exponents_to_grpsize(part, strategy.grpsize()).unwrap();
}

// Block b begins a run, with a new set of this strategy.
fn begin_run(coeffs: &Coefficients<'_>, b: usize, c: usize, strategy: Strategy, part: &mut [u8])
    requires { (b < 6) × (c < channels coeffs.now.track.now.settings) × (length part.old ≡ 256) }
    ensures { part.new ≡ run_part coeffs.now.track.now.settings coeffs.now.values.now b c strategy }
{
    let end = coeffs.track.end_at(c);
    run_exponents(coeffs, b, c, strategy, &mut part[0..end]);
    part[end..256].fill(0);
}

// A channel's part of block b, over that of the block before: a reuse block leaves it.
pub(crate) fn next_part(coeffs: &Coefficients<'_>, b: usize, c: usize, part: &mut [u8])
    requires { (b < 6) × (c < channels coeffs.now.track.now.settings) × (length part.old ≡ 256) }
    ensures { part.new ≡ next_part coeffs.now.track.now.settings coeffs.now.values.now b c part.old }
{
    if let ExponentSet::New(strategy) = coeffs.track.set_at(b, c) {
        begin_run(coeffs, b, c, strategy, part);
    }
}
