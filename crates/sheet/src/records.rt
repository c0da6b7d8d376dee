// The records of a sheet, one after the other.
ghost use Rattle.std.specs.Prelude.{◌≡◌, ◌<◌, ◌^◌, length};
ghost use Rattle.std.specs.Iterator.{YieldsFirstRef, item_count};
ghost use Rattle.sheet.specs.Grammar.{count_off, records_of};

use crate::read::{HEAD_SIZE, record_size};

/// Those that stand in the bytes that are left; the last is cut short where these end too early.
#[derive(Drop)]
pub struct Records<'a> {
    rest: &'a [u8],
}

impl<'a> Records<'a> {
    pub fn of(sheet: &'a [u8]) -> Records<'a>
        ensures records { count_off 0 result.rest.now ≡ records_of sheet.now }
        ensures count_fits { length (records_of sheet.now) < 2 ^ 64 }
    {
        Records {
            rest: &sheet[HEAD_SIZE.min(sheet.len())..],
        }
    }
}

impl<'a> Iterator for Records<'a> {
    type Item = &'a [u8];

    ghost next_gives = { YieldsFirstRef (λ s. count_off 0 s.rest.now) };

    ghost remaining = { item_count (λ s. count_off 0 s.rest.now) };

    fn next(&mut self) -> Option<&'a [u8]> {
        if self.rest.is_empty() {
            return None;
        }
        let size = record_size(self.rest).min(self.rest.len());
        let (record, rest) = self.rest.split_at(size);
        self.rest = rest;
        Some(record)
    }
}
