// What a sheet sets, by value: the common part, and a record for each channel.
ghost use Rattle.std.specs.Prelude.{◌≡◌, ◌<◌};
ghost use Rattle.sheet.specs.Settings.{settings_of};
ghost use Rattle.sheet.specs.Sheet.{check_of};
ghost use Rattle.sheet.specs.Sizes.{most_channels};

use crate::common_part::{Common, common_of};
use crate::layout::{MOST_CHANNELS, MOST_RECORDS};
use crate::record::{ChannelRecord, record_of};
use elements::{BlockSet, ExponentSet};

// The records by channel number; that of a channel which is not there is all 0.
#[derive(Clone, Copy)]
pub struct Settings {
    pub common: Common,
    pub records: [ChannelRecord; MOST_RECORDS],
}

// Those of an accepted sheet, whose records stand in the order of their channels. Inlined: else a `Track` would be filled by a copy of them.
#[inline(always)]
pub fn settings_of(sheet: &[u8]) -> Settings
    requires { check_of sheet.now ≡ Ok tt }
    ensures { result ≡ settings_of sheet.now }
{
    let common = common_of(sheet);
    let records = [
        record_of(sheet, 0),
        record_of(sheet, 1),
        record_of(sheet, 2),
        record_of(sheet, 3),
        record_of(sheet, 4),
        record_of(sheet, 5),
    ];
    Settings { common, records }
}

impl Settings {
    ghost use Rattle.sheet.specs.Settings.{record_at, strategies_of};

    #[tactic(auto, unfolding(crate::specs::Settings::record_at))]
    pub fn record_at(&self, c: usize) -> &ChannelRecord
        requires { c < most_channels }
        ensures { result.now ≡ record_at self.now c }
    {
        &self.records[c]
    }

    /// The strategies of all channels, channel by block; reuse for a channel that is not there.
    #[tactic(auto, unfolding(crate::specs::Settings::record_at, crate::specs::Settings::strategies_of))]
    pub fn strategies(&self) -> [[BlockSet; 6]; MOST_CHANNELS]
        ensures { result ≡ strategies_of self.now }
    {
        [
            self.records[0].blocks,
            self.records[1].blocks,
            self.records[2].blocks,
            self.records[3].blocks,
            self.records[4].blocks,
            self.records[5].blocks,
        ]
    }
}
