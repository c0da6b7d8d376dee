// Bytes of a sheet.
ghost use Rattle.std.specs.Prelude.{◌≡◌, ◌<◌, get_or};
ghost use Rattle.sheet.specs.Grammar.{record_size, is_whole};

// The records start after the twelve bytes of the head.
pub const HEAD_SIZE: usize = 12;

// The byte at i, 0 past the end.
pub fn byte_at(bytes: &[u8], i: usize) -> u8
    ensures { result ≡ get_or bytes.now i 0 }
{
    bytes.get(i).copied().unwrap_or(0)
}

// The bytes that the record takes with which `bytes` begins.
pub fn record_size(bytes: &[u8]) -> usize
    ensures { (result ≡ record_size bytes.now) × (result < 777) }
{
    11 + 3 * usize::from(byte_at(bytes, 10))
}

// The record is not cut short.
pub fn is_whole(bytes: &[u8]) -> bool
    ensures { result ≡ is_whole bytes.now }
{
    bytes.len() == record_size(bytes)
}
