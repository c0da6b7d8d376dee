// The masking curve of a band (A/52 7.2.2.5).
ghost use Rattle.std.specs.Prelude.{◌≡◌, ◌≤◌};
ghost use Rattle.masking.specs.Held.{held_curve};

// From an excitation that is held to 0; the threshold is above all that the knee can add.
#[tactic(auto, unfolding(crate::specs::Held::held_curve))]
pub fn masking_curve(excite: u16, bndpsd: u16, dbknee: u16, threshold: u16) -> u16
    requires { (excite ≤ 8191) × (dbknee ≤ 8191) }
    ensures { result ≡ held_curve excite bndpsd dbknee threshold }
{
    (excite + dbknee.saturating_sub(bndpsd) / 4).max(threshold)
}
