// logadd alone (A/52 7.2.2.3): document 01's starred cases, equal values, and both sides of each step of the table's address and of its end.
ghost use Rattle.std.specs.Prelude.{◌≤◌};

use std::io;

fn line(rt: &impl Print, a: u32, b: u32) -> io::Result<()>
    requires { (a ≤ 8191) × (b ≤ 8191) }
{
    let sum = excitation::logadd(a, b);
    println!(rt; "logadd {a} {b}: {sum}")
}

// A distance, either way round.
fn apart(rt: &impl Print, a: u32, d: u32) -> io::Result<()>
    requires { (a ≤ 3072) × (d ≤ 1023) }
{
    line(rt, a, a + d)?;
    line(rt, a + d, a)
}

fn distances(rt: &impl Print, a: u32) -> io::Result<()>
    requires { a ≤ 3072 }
{
    for d in [1, 3, 4, 127, 128, 129, 508, 509, 510, 511, 512, 513, 1023] {
        apart(rt, a, d)?;
    }
    Ok(())
}

pub(crate) fn all(rt: &impl Print) -> io::Result<()> {
    line(rt, 0, 0)?;
    line(rt, 0, 2)?;
    line(rt, 3072, 0)?;
    line(rt, 1536, 1536)?;
    line(rt, 3072, 3072)?;
    distances(rt, 0)?;
    distances(rt, 1)?;
    distances(rt, 1536)?;
    distances(rt, 3072)
}
