// bap 1 to 5: the nearest of the symmetric levels (A/52 7.3.3; `nearest_symmetric` of the Rust).
ghost use Rattle.std.specs.Prelude.{◌≡◌, ◌≤◌, length};
ghost use Rattle.tables.specs.Quantizer.{levels, level_count};
ghost use Rattle.quantiser.specs.Symmetric.{distance, nearest_of};

// |m - level|, by a rounded f32 difference. No `abs`, which would make a 0 of a -0: the definition does not.
#[tactic(auto, unfolding(crate::specs::Symmetric::distance))]
fn distance_to(m: f32, level: f32) -> f32
    ensures { result ≡ distance m level }
{
    let d = m - level;
    if d < 0.0 { -d } else { d }
}

// The index of the level nearest to m, the lowest of several.
fn nearest_symmetric(m: f32, table: &[f32]) -> u16
    requires { length table.now ≤ 15 }
    ensures { result ≡ nearest_of m table.now }
{
    let mut best = 0;
    let mut best_distance = f32::INFINITY;
    for (i, &level) in table.iter().enumerate() {
        let d = distance_to(m, level);
        if d < best_distance {
            best_distance = d;
            best = i as u16;
        }
    }
    best
}

// The code of bap 1 to 5.
pub fn level_code(m: f32, bap: u8) -> u16
    requires { (1 ≤ bap) × (bap ≤ 5) }
    ensures { result ≡ nearest_of m (levels (level_count bap)) }
{
    nearest_symmetric(m, tables::mant_level(bap))
}
