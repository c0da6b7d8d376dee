// Prints the published tables of A/52 7.2.3 and 7.3 as docs/a52-tables.txt has them: a title, then rows of ten entries behind the index
// of the first, hexadecimal where the standard prints that. A level of 7.3 is printed as the bits of its f32.
ghost use Rattle.std.specs.Prelude.{◌≡◌, ◌≤◌, ◌<◌, length, map};
ghost use Rattle.std.specs.List.{range_with_len};
ghost use Rattle.std.specs.Float.{binary32};
ghost use Rattle.std.specs.Float.Ieee.{to_bits};
ghost use Rattle.tables.specs.Quantizer.{level, level_count};

use std::array::from_fn;
use std::io;

// Prints an entry behind a blank: in hexadecimal with so many digits, or in decimal.
fn print_entry(rt: &impl Print, n: u64, digits: Option<usize>) -> io::Result<()> {
    match digits {
        Some(digits) => print!(rt; " 0x{n:0digits$x}"),
        None => print!(rt; " {n}"),
    }
}

// Prints entries in a row, behind the index of the first.
fn print_row<T: Copy + Into<u64>>(
    rt: &impl Print,
    first: usize,
    entries: &[T],
    digits: Option<usize>,
) -> io::Result<()> {
    print!(rt; "{first:4}:")?;
    for &entry in entries {
        print_entry(rt, entry.into(), digits)?;
    }
    println!(rt; "")
}

// Prints a table: its title, its rows, an empty line.
fn print_table<T: Copy + Into<u64>>(
    rt: &impl Print,
    title: &str,
    entries: &[T],
    digits: Option<usize>,
) -> io::Result<()>
    requires { length entries.now ≤ 256 }
{
    println!(rt; "{title}")?;
    for (i, row) in entries.chunks(10).enumerate() {
        print_row(rt, 10 * i, row, digits)?;
    }
    println!(rt; "")
}

fn parameters(rt: &impl Print) -> io::Result<()> {
    let title = "Table 7.6 slowdec (4 entries)";
    print_table(rt, title, tables::slowdec(), Some(2))?;
    let title = "Table 7.7 fastdec (4 entries)";
    print_table(rt, title, tables::fastdec(), Some(2))?;
    let title = "Table 7.8 slowgain (4 entries)";
    print_table(rt, title, tables::slowgain(), Some(3))?;
    let title = "Table 7.9 dbpbtab (4 entries)";
    print_table(rt, title, tables::dbpbtab(), Some(3))?;
    let title = "Table 7.10 floortab (16-bit two's complement: the last is -2048) (8 entries)";
    print_table(rt, title, tables::floortab(), Some(4))?;
    let title = "Table 7.11 fastgain (8 entries)";
    print_table(rt, title, tables::fastgain(), Some(3))
}

fn bands(rt: &impl Print) -> io::Result<()> {
    print_table(rt, "Table 7.12 bndtab (50 entries)", tables::bndtab(), None)?;
    print_table(rt, "Table 7.12 bndsz (50 entries)", tables::bndsz(), None)?;
    let masktab: [u8; 256] = from_fn(tables::masktab);
    print_table(rt, "Table 7.13 masktab (256 entries)", &masktab, None)
}

fn masking(rt: &impl Print) -> io::Result<()> {
    let title = "Table 7.14 latab (256 entries)";
    print_table(rt, title, &tables::latab_table(), Some(2))?;
    let title = "Table 7.15 hth, fscod 0 (48 kHz) (50 entries)";
    print_table(rt, title, tables::hth(0), Some(4))?;
    let title = "Table 7.15 hth, fscod 1 (44.1 kHz) (50 entries)";
    print_table(rt, title, tables::hth(1), Some(4))?;
    let title = "Table 7.15 hth, fscod 2 (32 kHz) (50 entries)";
    print_table(rt, title, tables::hth(2), Some(4))
}

fn quantizer(rt: &impl Print) -> io::Result<()> {
    print_table(rt, "Table 7.16 baptab (64 entries)", tables::baptab(), None)?;
    let title = "Table 7.18 bits of a mantissa by bap (a group's bits for 1, 2, 4)";
    print_table(rt, title, tables::quantization_bits(), None)
}

// The bits of a level.
fn level_bits(bap: u8, i: usize) -> u32
    requires { (1 ≤ bap) × (bap ≤ 5) × (i < level_count bap) }
    ensures { result ≡ to_bits binary32 (level (level_count bap) i) }
{
    f32::to_bits(tables::mant_level(bap)[i])
}

// Those of a bap's levels. A loop: of `from_fn` with a closure that holds the bap it stayed open which bap a turn has.
fn levels_bits<const L: usize>(bap: u8) -> [u32; L]
    requires { (1 ≤ bap) × (bap ≤ 5) × (L ≡ level_count bap) }
    ensures { result ≡ map (λ i. to_bits binary32 (level (level_count bap) i)) (range_with_len 0 (level_count bap)) }
{
    let mut bits = [0u32; L];
    for i in 0..L {
        bits[i] = level_bits(bap, i);
    }
    bits
}

#[tactic(auto, unfolding(tables::specs::Quantizer::level_count))]
fn levels(rt: &impl Print) -> io::Result<()> {
    print_table(
        rt,
        "Table 7.19 bap 1, 3 levels",
        &levels_bits::<3>(1),
        Some(8),
    )?;
    print_table(
        rt,
        "Table 7.20 bap 2, 5 levels",
        &levels_bits::<5>(2),
        Some(8),
    )?;
    print_table(
        rt,
        "Table 7.21 bap 3, 7 levels",
        &levels_bits::<7>(3),
        Some(8),
    )?;
    print_table(
        rt,
        "Table 7.22 bap 4, 11 levels",
        &levels_bits::<11>(4),
        Some(8),
    )?;
    print_table(
        rt,
        "Table 7.23 bap 5, 15 levels",
        &levels_bits::<15>(5),
        Some(8),
    )
}

// Prints all tables in the standard's order.
pub(crate) fn all(rt: &impl Print) -> io::Result<()> {
    parameters(rt)?;
    bands(rt)?;
    masking(rt)?;
    quantizer(rt)?;
    levels(rt)
}
