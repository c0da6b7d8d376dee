// Where each channel's part of a buffer stands, and the sizes of what is held by value. There is no heap: a local buffer has the most entries, and its
// front is used.
ghost use Rattle.std.specs.Prelude.{◌≡◌, ◌<◌, ◌≤◌};
ghost use Rattle.sheet.specs.Sizes.{most_channels};
ghost use Rattle.sheet.specs.Layout.{buffer_length};
ghost use Rattle.sheet.specs.Inner.{PartStart};

// The most channels that a frame can have.
pub const MOST_CHANNELS: usize = 6;

// The most records that a sheet can have.
pub const MOST_RECORDS: usize = 6;

// The entries of the longest row, and of the longest buffer.
pub const MOST_ROW: usize = 256 * MOST_CHANNELS;

pub const MOST_BUFFER: usize = 6 * MOST_ROW;

pub fn buffer_length(channels: usize) -> usize
    requires { channels ≤ most_channels }
    ensures { result ≡ buffer_length channels }
{
    6 * channels * 256
}

// A channel's part of a block has 256 entries from here on.
pub fn part_start(channels: usize, block: usize, channel: usize) -> usize
    requires { (channels ≤ most_channels) × (block < 6) × (channel < channels) }
    ensures { PartStart channels block channel result }
{
    256 * (channels * block + channel)
}
