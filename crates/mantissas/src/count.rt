// The bits of a mantissa stream, counted from the baps alone: each bin adds its weight to a tally, which document 01's formula reads.
ghost use Rattle.std.specs.Prelude.{◌≡◌, ◌+◌, ◌*◌, ◌^◌, ◌≤◌, ◌<◌, length};
ghost use Rattle.mantissas.specs.Calls.{most_entries};
ghost use Rattle.mantissas.specs.Inner.{Below};
ghost use Rattle.mantissas.specs.Stream.{bit_count};
ghost use Rattle.mantissas.specs.Tally.{tally_of, tally_bits};

// What a bin of each bap adds to a tally: one of 2^16, 2^27 or 2^38 for bap 1, 2 or 4, which are grouped, else the bits of its field.
const WEIGHTS: [u64; 16] = [
    0,
    65536,
    134217728,
    3,
    274877906944,
    4,
    5,
    6,
    7,
    8,
    9,
    10,
    11,
    12,
    14,
    16,
];

// The tally with these bins: every bin does the same, with no test, and where its group began does not matter.
pub fn weigh(bap: &[u8], tally: u64) -> u64
    requires below { Below 16 bap.now }
    requires bap_bound { tally + 2 ^ 38 * length bap.now < 2 ^ 64 }
    ensures value { result ≡ tally + tally_of bap.now }
    ensures upper_bound { result ≤ tally + 2 ^ 38 * length bap.now }
{
    let weights = WEIGHTS;
    let mut sum = tally;
    for &b in bap {
        sum += weights[usize::from(b)];
    }
    sum
}

// The bits that a tally stands for: a begun group counts whole.
#[tactic(auto, unfolding(crate::specs::Tally::tally_bits))]
pub fn bits_of(tally: u64) -> u32
    ensures { result ≡ tally_bits tally }
{
    let alone = tally % 65536;
    let ones = tally / 65536 % 2048;
    let twos = tally / 134217728 % 2048;
    let fours = tally / 274877906944;
    (alone + 5 * ones.div_ceil(3) + 7 * twos.div_ceil(3) + 7 * fours.div_ceil(2)) as u32
}

// The length of the stream of any codes of these baps.
pub fn count_mantissas(bap: &[u8]) -> u32
    requires below { Below 16 bap.now }
    requires bap_len_bound { length bap.now ≤ most_entries }
    ensures value { result ≡ bit_count bap.now }
    ensures upper_bound { result ≤ 16 * length bap.now }
{
    bits_of(weigh(bap, 0))
}
