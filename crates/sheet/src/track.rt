// What an accepted sheet sets: settings that are legal.
ghost use Rattle.std.specs.Prelude.{◌≡◌, ◌<◌, MatchResult};
ghost use Rattle.sheet.specs.LegalSettings.{ChannelCount, ChannelEnd, LegalSettings};
ghost use Rattle.sheet.specs.Settings.{settings_of, channels, record_at, set_at, set_in, strategies_of};
ghost use Rattle.sheet.specs.Sizes.{most_channels};
ghost use Rattle.sheet.specs.Sheet.{check_of};

use crate::check::check_sheet;
use crate::common_part::channels_of;
use crate::layout::MOST_CHANNELS;
use crate::record::ChannelRecord;
use crate::settings::{Settings, settings_of};
use bits::Refusal;
use elements::{BlockSet, ExponentSet};

#[derive(Clone, Copy)]
pub struct Track {
    pub settings: Settings,
    /// The strategies of all channels, channel by block: document 01 names this form, an array of arrays by value.
    pub strategies: [[BlockSet; 6]; MOST_CHANNELS],
    pub ghost table: { strategies ≡ strategies_of settings },
    pub ghost legal: { LegalSettings settings },
}

// Of an accepted sheet.
fn accepted(sheet: &[u8]) -> Track
    requires { check_of sheet.now ≡ Ok tt }
    ensures { result.settings ≡ settings_of sheet.now }
{
    let settings = settings_of(sheet);
    Track {
        settings,
        strategies: settings.strategies(),
    }
}

/// What a table of strategies holds for a channel's block: reuse, or a new set.
pub fn set_at(strategies: &[[BlockSet; 6]; MOST_CHANNELS], b: usize, c: usize) -> ExponentSet
    requires { (b < 6) × (c < most_channels) }
    ensures { result ≡ set_in strategies.now c b }
{
    strategies[c][b].set
}

impl Track {
    /// What the sheet sets, or why it is turned back.
    pub fn from_bytes(sheet: &[u8]) -> Result<Track, Refusal>
        ensures { MatchResult result
            (λ t. (check_of sheet.now ≡ Ok tt) × (t.settings ≡ settings_of sheet.now))
            (λ k. check_of sheet.now ≡ Err k) }
    {
        check_sheet(sheet)?;
        Ok(accepted(sheet))
    }

    /// C, the number of channels.
    pub fn channels(&self) -> usize
        ensures { ChannelCount self.now.settings result }
    {
        channels_of(self.settings.common)
    }

    pub fn record_at(&self, c: usize) -> &ChannelRecord
        requires { c < most_channels }
        ensures { result.now ≡ record_at self.now.settings c }
    {
        self.settings.record_at(c)
    }

    /// Where the bins of channel c end.
    pub fn end_at(&self, c: usize) -> usize
        requires { c < channels self.now.settings }
        ensures { ChannelEnd self.now.settings c result }
    {
        usize::from(self.settings.records[c].end)
    }

    /// What block b of channel c has: reuse, or a new set.
    pub fn set_at(&self, b: usize, c: usize) -> ExponentSet
        requires { (b < 6) × (c < most_channels) }
        ensures { result ≡ set_at self.now.settings b c }
    {
        set_at(&self.strategies, b, c)
    }
}
