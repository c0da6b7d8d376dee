// The check of a track sheet: its structure, then its ranges, then the order of its records.
ghost use Rattle.std.specs.Prelude.{◌≡◌};
ghost use Rattle.sheet.specs.Grammar.{every, is_whole, length_matches, records_of};
ghost use Rattle.sheet.specs.Ranges.{in_range};
ghost use Rattle.sheet.specs.Order.{in_order};
ghost use Rattle.sheet.specs.Sheet.{check_of, check_beside};

use crate::common_part::{channels_of, common_in_range, common_of};
use crate::ranges::{each_once, records_in_range};
use crate::read::{HEAD_SIZE, byte_at, is_whole};
use crate::records::Records;
use bits::Refusal;

// There are twelve bytes, and as many follow the length as it says.
fn length_matches(sheet: &[u8]) -> bool
    ensures { result ≡ length_matches sheet.now }
{
    (HEAD_SIZE <= sheet.len())
        & (sheet.len()
            == 2 + (256 * usize::from(byte_at(sheet, 0)) + usize::from(byte_at(sheet, 1))))
}

fn records_whole(sheet: &[u8]) -> bool
    ensures { result ≡ every is_whole (records_of sheet.now) }
{
    Records::of(sheet).all(|bytes| is_whole(bytes))
}

fn in_range(sheet: &[u8]) -> bool
    ensures { result ≡ in_range sheet.now }
{
    let common = common_of(sheet);
    if common_in_range(common) {
        records_in_range(common, sheet) & each_once(sheet, channels_of(common))
    } else {
        false
    }
}

// Each record's channel number is more than that of the record before it.
fn in_order(sheet: &[u8]) -> bool
    ensures { result ≡ in_order sheet.now }
{
    let mut all = true;
    let mut least: usize = 0;
    for bytes in Records::of(sheet) {
        let channel = usize::from(byte_at(bytes, 0));
        all = all & (least <= channel);
        least = channel + 1;
    }
    all
}

pub fn check_sheet(sheet: &[u8]) -> Result<(), Refusal>
    ensures { result ≡ check_of sheet.now }
{
    if !length_matches(sheet) {
        return Err(Refusal::Structure); // too few bytes, or another length
    }
    if byte_at(sheet, 2) != 1 {
        return Err(Refusal::Structure); // another version
    }
    if !records_whole(sheet) {
        return Err(Refusal::Structure); // a record cut short
    }
    if !in_range(sheet) {
        return Err(Refusal::OutOfRange);
    }
    if !in_order(sheet) {
        return Err(Refusal::OutOfOrder);
    }
    Ok(())
}

// The check for a call that takes numbers beside the sheet: one out of its range is a 2 like the sheet's own, so it comes before 11.
pub fn check_beside(sheet: &[u8], numbers_in_range: bool) -> Result<(), Refusal>
    ensures { result ≡ check_beside numbers_in_range sheet.now }
{
    let checked = check_sheet(sheet);
    if numbers_in_range | (checked == Err(Refusal::Structure)) {
        return checked;
    }
    Err(Refusal::OutOfRange)
}
