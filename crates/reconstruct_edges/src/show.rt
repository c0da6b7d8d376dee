// How a bin is shown: its numbers one behind the other. A level is shown by its bits.
use bits::Refusal;
use reconstruct::Reconstructed;
use std::io;

// What is not finite, which no level is, has a pattern that no level has.
pub(crate) fn pattern_of(level: f32) -> u32 {
    if shaping::is_finite(level) {
        return f32::to_bits(level);
    }
    u32::MAX
}

// 0, or the refusal's number.
pub(crate) fn number_of<T>(answer: &Result<T, Refusal>) -> u32 {
    match answer {
        Ok(_) => 0,
        Err(refusal) => refusal.number(),
    }
}

// The refusal's number, whether there is a level, and the level; what is refused shows as a silent bin does.
pub(crate) fn answer(rt: &impl Print, given: Result<Reconstructed, Refusal>) -> io::Result<()> {
    let bin = given.unwrap_or(Reconstructed::Silent);
    print!(rt;
        " {} {} {}",
        number_of(&given),
        bin.flag(),
        pattern_of(bin.level())
    )
}
