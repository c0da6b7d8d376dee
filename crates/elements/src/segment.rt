// A segment of the delta bit allocation (A/52 5.4.3.51 to 5.4.3.57, 7.2.2.6).

/// How many bands it starts behind the end of the segment before it, how many bands it has, and the code of what is added to them.
#[derive(Clone, Copy, Debug, PartialEq, Eq, Hash)]
pub struct Segment {
    pub offst: u8,
    pub len: u8,
    pub ba: u8,
}
