// Streams of many entries, written and read back.
ghost use Rattle.std.specs.Prelude.{◌≡◌, ◌<◌, length};

use crate::show;
use crate::writing::LARGEST;
use std::io;

fn bap_of(i: usize) -> u8
    ensures { result < 16 }
{
    (i % 16) as u8
}

// A code of the bap: of each largest code some of its bits.
fn code_of(bap: u8, i: usize) -> u16
    requires { (bap < 16) × (i < 1600) }
{
    (i * 37) as u16 & LARGEST[usize::from(bap)]
}

// The baps go round from 0 to 15.
fn fill(bap: &mut [u8], codes: &mut [u16])
    requires { (length bap.old ≡ 1540) × (length codes.old ≡ 1540) }
{
    for i in 0..1540 {
        let b = bap_of(i);
        bap[i] = b;
        codes[i] = code_of(b, i);
    }
}

fn write_and_read(
    rt: &impl Print,
    out: &mut [u8],
    back: &mut [u16],
    bap: &[u8],
    codes: &[u16],
) -> io::Result<()> {
    print!(rt; "many {} {} {}:", bap.len(), codes.len(), out.len())?;
    show::answer(rt, mantissas::write_mantissa_stream(out, bap, codes))?;
    show::sums(rt, out)?;
    show::answer(rt, mantissas::read_mantissa_stream(out, bap, back))?;
    show::sums(rt, back)?;
    println!(rt; "")
}

// The first m baps and n codes, into so many bytes, and read back.
fn round(rt: &impl Print, m: usize, n: usize, room: usize) -> io::Result<()> {
    let mut bap = [0u8; 1540];
    let mut codes = [0u16; 1540];
    let mut back = [7u16; 1540];
    let mut out = [255u8; 1400];
    if 1540 < m {
        return Ok(());
    }
    if 1540 < n {
        return Ok(());
    }
    if 1400 < room {
        return Ok(());
    }
    fill(&mut bap, &mut codes);
    write_and_read(
        rt,
        &mut out[0..room],
        &mut back[0..n],
        &bap[0..m],
        &codes[0..n],
    )
}

pub(crate) fn streams(rt: &impl Print) -> io::Result<()> {
    round(rt, 1536, 1536, 1400)?;
    round(rt, 1536, 1536, 1350)?;
    round(rt, 1536, 1536, 1349)?;
    round(rt, 1535, 1535, 1350)?;
    round(rt, 1537, 1537, 1400)?;
    round(rt, 1536, 1535, 1400)?;
    round(rt, 1535, 1536, 1400)?;
    round(rt, 256, 256, 256)?;
    round(rt, 16, 16, 16)
}
