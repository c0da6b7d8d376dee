// The track sheet of document 01: its check, its values by value, and where each channel's part of a buffer stands.
#![tactic(auto)]

pub mod check;
pub mod common_part;
pub mod layout;
pub mod ranges;
pub mod read;
pub mod record;
pub mod records;
pub mod settings;
pub mod track;

pub use check::{check_beside, check_sheet};
pub use common_part::{Common, channels_of, common_of};
pub use elements::{BlockSet, ExponentSet};
pub use layout::{MOST_BUFFER, MOST_CHANNELS, MOST_RECORDS, MOST_ROW, buffer_length, part_start};
pub use ranges::legal_end;
pub use record::{ChannelCodes, ChannelRecord, record_of};
pub use settings::{Settings, settings_of};
pub use track::{Track, set_at};
