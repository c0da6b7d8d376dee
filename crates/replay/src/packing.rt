// A case as the list keeps it: runs of equal bytes by their length, all else as it is.
ghost use Rattle.std.specs.Prelude.{◌≤◌, length};

// A first byte below this stands before bytes as they are, another before one that is repeated.
const REPEATED: usize = 128;

// How many bytes stand behind a run's first one.
fn bytes_behind(first: usize) -> usize
    requires { first ≤ 255 }
    ensures { result ≤ 128 }
{
    if first < REPEATED { first + 1 } else { 1 }
}

// How many bytes a run is unpacked to.
fn bytes_meant(first: usize) -> usize
    requires { first ≤ 255 }
    ensures { result ≤ 129 }
{
    if first < REPEATED {
        first + 1
    } else {
        first - 126
    }
}

// As many bytes as there are places are copied; otherwise the first is repeated.
fn spread(bytes: &[u8], places: &mut [u8]) {
    if bytes.len() == places.len() {
        places.copy_from_slice(bytes);
    } else if let Some(first) = bytes.first() {
        places.fill(*first);
    }
}

// Whether the packed bytes stand for as many bytes as there are places, which then hold them. How far a run goes is in its first byte, so the
// loop is a `while`.
pub(crate) fn unpack(packed: &[u8], plain: &mut [u8]) -> bool
    requires { (length packed.now ≤ 24576) × (length plain.old ≤ 81920) }
{
    let mut at = 0;
    let mut to = 0;
    while at < packed.len() {
        let first = usize::from(packed[at]);
        let start = at + 1;
        let behind = start + bytes_behind(first);
        let end = to + bytes_meant(first);
        if packed.len() < behind || plain.len() < end {
            return false;
        }
        spread(&packed[start..behind], &mut plain[to..end]);
        at = behind;
        to = end;
    }
    to == plain.len()
}
