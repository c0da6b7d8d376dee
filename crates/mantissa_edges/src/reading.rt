// Short mantissa streams, read into four codes that were 65535.
use crate::show;
use std::io;

fn read_into(rt: &impl Print, codes: &mut [u16], input: &[u8], bap: &[u8]) -> io::Result<()> {
    print!(rt; "read")?;
    show::each(rt, input)?;
    print!(rt; ",")?;
    show::each(rt, bap)?;
    print!(rt; ":")?;
    show::answer(rt, mantissas::read_mantissa_stream(input, bap, codes))?;
    print!(rt; ",")?;
    show::each(rt, codes)?;
    println!(rt; "")
}

fn read(rt: &impl Print, bap: &[u8], input: &[u8]) -> io::Result<()> {
    let mut codes = [65535u16; 4];
    let n = bap.len();
    if 4 < n {
        return Ok(());
    }
    read_into(rt, &mut codes[0..n], input, bap)
}

// Each value of a field that stands in the highest bits of a byte: `count` of them, `unit` apart.
fn each_value(rt: &impl Print, bap: &[u8], count: u8, unit: u8) -> io::Result<()> {
    for i in 0..count {
        read(rt, bap, &[i.wrapping_mul(unit)])?;
    }
    Ok(())
}

pub(crate) fn values(rt: &impl Print) -> io::Result<()> {
    each_value(rt, &[1, 1, 1], 32, 8)?;
    each_value(rt, &[2, 2, 2], 128, 2)?;
    each_value(rt, &[4, 4], 128, 2)?;
    each_value(rt, &[3], 8, 32)?;
    each_value(rt, &[5], 16, 16)?;
    each_value(rt, &[1], 32, 8)?;
    each_value(rt, &[3, 5], 255, 1)
}

pub(crate) fn cut_short(rt: &impl Print) -> io::Result<()> {
    read(rt, &[], &[])?;
    read(rt, &[0, 0], &[])?;
    read(rt, &[1], &[])?;
    read(rt, &[1, 0, 2], &[7])?;
    read(rt, &[1, 1, 1, 1], &[216])?;
    read(rt, &[15], &[255])?;
    read(rt, &[15], &[255, 254])?;
    read(rt, &[14, 1], &[255, 254])?;
    read(rt, &[6, 2], &[255, 255])?;
    read(rt, &[6, 16], &[])?;
    read(rt, &[1, 6, 1, 1], &[152, 192])?;
    read(rt, &[1, 6, 1, 1], &[152])?;
    read(rt, &[2, 6, 1, 4], &[255])
}
