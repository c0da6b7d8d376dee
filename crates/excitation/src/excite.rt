// The excitations of all bands (A/52 7.2.2.4), in stretches: bands 0 to 6, where `begin` is looked for; 7 to 21, where lowcomp counts; and the
// rest.
ghost use Rattle.std.specs.Prelude.{◌≡◌, ℕ, ◌<◌, ◌≤◌, get_or, take};
ghost use Rattle.bits.specs.Parts.{tab};
ghost use Rattle.excitation.specs.Front.{front};
ghost use Rattle.excitation.specs.Held.{after, excited_by};

use crate::excitation::{LeakParameters, LeakState};

// The bands of one stretch. It is inlined with the stretch's bounds, so that no test on the band is left in its loop.
#[inline(always)]
fn excite_stretch(
    p: LeakParameters,
    lfe: bool,
    powers: &[u16; 51],
    first: usize,
    behind: usize,
    leaks: LeakState,
    excites: &mut [u16; 50],
) -> LeakState
    requires le_bands { (first ≤ behind) × (behind ≤ 50) }
    requires by_index { (k : ℕ) → get_or powers.now k 0 ≤ 8191 }
    requires leaks_value { leaks ≡ after p lfe (λ k. get_or powers.now k 0) first }
    requires excites_value { take first excites.old ≡ tab first (excited_by p lfe powers.now) }
    ensures value { result ≡ after p lfe (λ k. get_or powers.now k 0) behind }
    ensures excites_after { excites.new ≡ front (excited_by p lfe powers.now) behind excites.old }
{
    let mut leaks = leaks;
    for band in first..behind {
        leaks = leaks.after(
            p,
            lfe,
            u32::from(powers[band]),
            u32::from(powers[band + 1]),
            band,
        );
        excites[band] = leaks.excite as u16;
    }
    leaks
}

// The excitations of the first bands; a channel has 7 of them or at least 22. Before band 3 no leak has begun: bands 0 to 6 are two short
// stretches, which the compiler writes out.
pub fn excite_bands(
    p: LeakParameters,
    lfe: bool,
    powers: &[u16; 51],
    bands: usize,
    excites: &mut [u16; 50],
)
    requires bands_bound { (bands ≤ 50) × (bands < 22 → bands ≡ 7) }
    requires by_index { (k : ℕ) → get_or powers.now k 0 ≤ 8191 }
    ensures { excites.new ≡ front (excited_by p lfe powers.now) bands excites.old }
{
    let leaks = excite_stretch(p, lfe, powers, 0, 3, LeakState::start(), excites);
    let leaks = excite_stretch(p, lfe, powers, 3, 7, leaks, excites);
    if bands < 22 {
        return;
    }
    let leaks = excite_stretch(p, lfe, powers, 7, 22, leaks, excites);
    excite_stretch(p, lfe, powers, 22, bands, leaks, excites);
}
