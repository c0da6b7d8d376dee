// The excitation of one band (A/52 7.2.2.4), from what the band before it left. The code's numbers are natural: a value that the standard has
// negative is 0 here. No test on a psd makes a branch but one that hardly ever holds, since such branches cannot be foreseen.
ghost use Rattle.std.specs.Prelude.{◌≡◌, ◌-◌, ◌<◌, ◌≤◌, max};
ghost use Rattle.excitation.specs.Excitation.{stepped_lowcomp};
ghost use Rattle.excitation.specs.Held.{held_excite, next_begun, next_leak, next_lowcomp, start, stepped};

// Four parameters of A/52 7.2.2.1.
#[derive(Clone, Copy, Debug, PartialEq, Eq)]
pub struct LeakParameters {
    pub sdecay: u32,
    pub fdecay: u32,
    pub sgain: u32,
    pub fgain: u32,
}

// What a band leaves to the next one, and its excitation. `begun`: the next band is at `begin` or past it. A flag, and no Option of the leaks: both
// ways are worked out and one is taken, with no branch.
#[derive(Clone, Copy, Debug, PartialEq, Eq)]
pub struct LeakState {
    pub lowcomp: u32,
    pub fastleak: u32,
    pub slowleak: u32,
    pub excite: u32,
    pub begun: bool,
}

// calc_lowcomp below band 20, where only the step differs.
fn lowcomp_step(step: u32, a: u32, b0: u32, b1: u32) -> u32
    requires { (b0 ≤ 8191) × (b1 ≤ 8191) }
    ensures { result ≡ stepped_lowcomp step a b0 b1 }
{
    // 1 where b1 is below b0, else 0; no `u32::from(b1 < b0)`, of which the compiler makes a branch
    let falls = (65535 + b0 - b1) / 65536;
    let down = a.saturating_sub(64 * falls);
    if b0 + 256 == b1 { step } else { down }
}

// The LFE's last band, 6, has no next one.
#[tactic(auto, unfolding(crate::specs::Held::next_lowcomp, crate::specs::Excitation::calc_lowcomp))]
fn next_lowcomp(lfe: bool, a: u32, b0: u32, b1: u32, band: usize) -> u32
    requires { band < 20 → (b0 ≤ 8191) × (b1 ≤ 8191) }
    ensures { result ≡ next_lowcomp lfe a b0 b1 band }
{
    if lfe & (band == 6) {
        return a;
    }
    if 20 <= band {
        return a.saturating_sub(128);
    }
    let step = if band < 7 { 384 } else { 320 };
    lowcomp_step(step, a, b0, b1)
}

// A leak, which decays once it has begun.
#[tactic(auto, unfolding(crate::specs::Held::next_leak))]
fn next_leak(begun: bool, leak: u32, decay: u32, b0: u32, gain: u32) -> u32
    ensures { result ≡ next_leak begun leak decay b0 gain }
{
    let kept = if begun { leak } else { 0 };
    kept.saturating_sub(decay).max(b0.saturating_sub(gain))
}

// The excitation of a band: from 22 on lowcomp does not count.
#[tactic(auto, unfolding(crate::specs::Held::held_excite))]
fn held_excite(begun: bool, band: usize, fast: u32, slow: u32, low: u32) -> u32
    ensures { result ≡ held_excite begun band fast slow low }
{
    if begun & (22 <= band) {
        return fast.max(slow);
    }
    let kept = if begun { slow } else { 0 };
    fast.saturating_sub(low).max(kept)
}

impl LeakState {
    // Before the first band.
    pub fn start() -> LeakState
        ensures { result ≡ start }
    {
        LeakState {
            lowcomp: 0,
            fastleak: 0,
            slowleak: 0,
            excite: 0,
            begun: false,
        }
    }

    // After one more band; from 22 on whatever the next one is. What is inlined where the band is known to lie in one stretch keeps no test on it.
    #[inline(always)]
    #[tactic(auto, unfolding(crate::specs::Held::stepped, crate::specs::Held::next_begun))]
    pub fn after(self, p: LeakParameters, lfe: bool, b0: u32, b1: u32, band: usize) -> LeakState
        requires { band < 22 → (b0 ≤ 8191) × (b1 ≤ 8191) }
        ensures { result ≡ stepped p lfe self b0 b1 band }
    {
        let low = next_lowcomp(lfe, self.lowcomp, b0, b1, band);
        let fast = next_leak(self.begun, self.fastleak, p.fdecay, b0, p.fgain);
        let slow = next_leak(self.begun, self.slowleak, p.sdecay, b0, p.sgain);
        LeakState {
            lowcomp: low,
            fastleak: fast,
            slowleak: slow,
            excite: held_excite(self.begun, band, fast, slow, low),
            begun: self.begun | ((6 <= band) | ((2 <= band) & (b0 <= b1))),
        }
    }
}
