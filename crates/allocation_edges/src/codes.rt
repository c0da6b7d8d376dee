// Each value of each code, and the first one above its range.
use crate::allocate::allocated;
use crate::channels::{BASE, Codes};
use crate::exponents::flat_but;
use std::io;

fn code(rt: &impl Print, label: &str, value: u8, codes: Codes) -> io::Result<()> {
    print!(rt; "{label} {value}")?;
    allocated(rt, codes, flat_but(18, 8, 0), 253)?;
    allocated(rt, codes, flat_but(12, 5, 0), 37)?;
    println!(rt; "")
}

// The values below `count`, each in the base codes.
fn each<F: Fn(u8) -> Codes>(rt: &impl Print, label: &str, count: u8, with: F) -> io::Result<()>
    requires { F.IsAlwaysCallable with }
{
    for value in 0..count {
        code(rt, label, value, with(value))?;
    }
    Ok(())
}

pub(crate) fn all(rt: &impl Print) -> io::Result<()> {
    each(rt, "fscod", 4, |fscod| Codes { fscod, ..BASE })?;
    each(rt, "sdcycod", 5, |sdcycod| Codes { sdcycod, ..BASE })?;
    each(rt, "fdcycod", 5, |fdcycod| Codes { fdcycod, ..BASE })?;
    each(rt, "sgaincod", 5, |sgaincod| Codes { sgaincod, ..BASE })?;
    each(rt, "dbpbcod", 5, |dbpbcod| Codes { dbpbcod, ..BASE })?;
    each(rt, "floorcod", 9, |floorcod| Codes { floorcod, ..BASE })?;
    each(rt, "csnroffst", 65, |csnroffst| Codes { csnroffst, ..BASE })?;
    each(rt, "fsnroffst", 17, |fsnroffst| Codes { fsnroffst, ..BASE })?;
    each(rt, "fgaincod", 9, |fgaincod| Codes { fgaincod, ..BASE })
}
