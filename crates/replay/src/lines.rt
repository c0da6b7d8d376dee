// The lines that are printed.
use crate::calls::{ALL, CALLS};
use std::fmt::Display;
use std::io;
use std::ops::Add;

// How many cases were run, and how many differed.
#[derive(Clone, Copy, Default)]
pub struct Tally {
    pub ran: u32,
    pub differed: u32,
}

impl Tally {
    // One more case.
    pub(crate) fn with(self, same: bool) -> Tally {
        self + Tally {
            ran: 1,
            differed: u32::from(!same),
        }
    }
}

// The list has fewer cases than a tally can count.
impl Add for Tally {
    type Output = Tally;

    fn add(self, other: Tally) -> Tally {
        Tally {
            ran: self.ran.wrapping_add(other.ran),
            differed: self.differed.wrapping_add(other.differed),
        }
    }
}

fn line(rt: &impl Print, label: &impl Display, tally: Tally) -> io::Result<()> {
    println!(rt; "{label} {} cases, {} differ", tally.ran, tally.differed)
}

// The calls in the order of their numbers, and their sum.
pub(crate) fn all(rt: &impl Print, tallies: &[Tally; CALLS]) -> io::Result<()> {
    let mut total = Tally::default();
    for (call, &tally) in ALL.iter().zip(tallies) {
        line(rt, call, tally)?;
        total = total + tally;
    }
    line(rt, &"total", total)
}

// The list stops short or has another form.
pub(crate) fn damaged(rt: &impl Print) -> io::Result<()> {
    println!(rt; "damaged")
}
