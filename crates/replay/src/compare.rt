// What a call gave beside what the list has.
ghost use Rattle.std.specs.Prelude.{◌≡◌, true, ◌&&◌, ◌==◌, ℕ, ◌*◌, eqb, ◌<◌, List, length, MatchResult};
ghost use Rattle.bits.specs.Answer.{given, number};
ghost use Rattle.bits.specs.Refusal.{number_of};
ghost use Rattle.replay.specs.Entries.{SameEntries, code_in, word_in, pattern_of};

use crate::cases::Case;
use crate::parts::{code_at, word_at};
use bits::Refusal;
use frame::BodyBits;

// What a part of the list has entries of: how many bytes an entry has there, and what of it is compared.
pub(crate) trait Entry: Copy {
    ghost width: { ℕ };

    ghost pattern: { Self → ℕ };

    ghost entry_in: { ℕ → List ℕ → ℕ → ℕ };

    // The bytes of an entry.
    fn bytes() -> usize
        ensures { (result ≡ width) × (0 < result) };

    // Whether it is the entry i of n.
    fn is_at(self, part: &[u8], n: usize, i: usize) -> bool
        requires { (i < n) × (length part.now ≡ width * n) }
        ensures { result ≡ eqb (pattern self) (entry_in n part.now i) };
}

impl Entry for u16 {
    ghost width = { 2 };

    ghost pattern = { λ code. code };

    ghost entry_in = { code_in };

    fn bytes() -> usize {
        2
    }

    fn is_at(self, part: &[u8], n: usize, i: usize) -> bool {
        self == code_at(part, n, i)
    }
}

impl Entry for u32 {
    ghost width = { 4 };

    ghost pattern = { λ count. count };

    ghost entry_in = { word_in };

    fn bytes() -> usize {
        4
    }

    fn is_at(self, part: &[u8], n: usize, i: usize) -> bool {
        self == word_at(part, n, i)
    }
}

// A level is compared bit for bit.
impl Entry for f32 {
    ghost width = { 4 };

    ghost pattern = { pattern_of };

    ghost entry_in = { word_in };

    fn bytes() -> usize {
        4
    }

    fn is_at(self, part: &[u8], n: usize, i: usize) -> bool {
        pattern_of(self) == word_at(part, n, i)
    }
}

// Whether these entries are the ones of the part, and nothing is left over. `is_at` takes the entry's place, so `zip` and `all` would need
// the same index.
pub(crate) fn same_entries<T: Entry>(entries: &[T], part: &[u8]) -> bool
    ensures { (result ≡ true → SameEntries T.width T.pattern T.entry_in entries.now part.now) × (SameEntries T.width T.pattern T.entry_in entries.now part.now → result ≡ true) }
{
    let n = entries.len();
    let width = T::bytes();
    if part.len() % width != 0 {
        return false;
    }
    if part.len() / width != n {
        return false;
    }
    for i in 0..n {
        if !entries[i].is_at(part, n, i) {
            return false;
        }
    }
    true
}

// The bits of a level. What is not finite has those of a NaN that the list has nowhere: no level is one, and no output holds one before.
fn pattern_of(level: f32) -> u32
    ensures { result ≡ pattern_of level }
{
    if shaping::is_finite(level) {
        return level.to_bits();
    }
    0xffffffff
}

// The refusal alone.
pub(crate) fn same_refusal<T: Copy>(answer: Result<T, Refusal>, case: Case) -> bool
    ensures { result ≡ (number answer == case.refusal) }
{
    match answer {
        Ok(_) => case.refusal == 0,
        Err(refusal) => case.refusal == refusal.number(),
    }
}

// The refusal and the value.
pub(crate) fn same_answer(answer: Result<u32, Refusal>, case: Case) -> bool
    ensures { result ≡ (number answer == case.refusal) && (given answer == case.value) }
{
    same_refusal(answer, case) & (answer.unwrap_or(0) == case.value)
}

// The refusal and the bits of the body, 0 of a refused one.
pub(crate) fn same_frame_answer(answer: Result<BodyBits, Refusal>, case: Case) -> bool
    ensures { MatchResult answer
        (λ body. result ≡ (0 == case.refusal) && (body.bits == case.value))
        (λ k. result ≡ (number_of k == case.refusal) && (0 == case.value)) }
{
    match answer {
        Ok(body) => (0 == case.refusal) & (body.bits == case.value),
        Err(refusal) => (refusal.number() == case.refusal) & (0 == case.value),
    }
}
