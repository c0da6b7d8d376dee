// The mantissa stream of A/52 7.3: the ranges of the codes, the writer, the reader, and the count of bits.
#![tactic(auto)]

pub mod blocks;
pub mod code;
pub mod count;
pub mod reader;
pub mod stream;

pub use blocks::{count_block, mantissa_bits_total_ends};
pub use count::count_mantissas;
pub use reader::{get_mantissas, read_mantissa_stream};
pub use stream::{put_mantissas, write_mantissa_stream};
