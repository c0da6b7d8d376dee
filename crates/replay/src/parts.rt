// The parts of a case: numbers of four bytes, and entries wider than a byte, whose highest bytes stand first, then their next bytes, and
// so on.
ghost use Rattle.std.specs.Prelude.{◌≡◌, ◌+◌, ◌*◌, ◌<◌, ◌≤◌, length};
ghost use Rattle.replay.specs.Entries.{code_in, word_in};

// The number at four bytes, the highest first. `input` has the same line, since no crate is below both programs alone.
pub(crate) fn number_at(bytes: &[u8], at: usize) -> u32
    requires { at + 4 ≤ length bytes.now }
{
    u32::from_be_bytes([bytes[at], bytes[at + 1], bytes[at + 2], bytes[at + 3]])
}

// The entry i of n codes.
pub(crate) fn code_at(part: &[u8], n: usize, i: usize) -> u16
    requires { (i < n) × (2 * n ≤ length part.now) }
    ensures { result ≡ code_in n part.now i }
{
    u16::from_be_bytes([part[i], part[n + i]])
}

// The entry i of n numbers of four bytes.
pub(crate) fn word_at(part: &[u8], n: usize, i: usize) -> u32
    requires { (i < n) × (4 * n ≤ length part.now) }
    ensures { result ≡ word_in n part.now i }
{
    u32::from_be_bytes([part[i], part[n + i], part[2 * n + i], part[3 * n + i]])
}

// Bytes that no entry has are left over.
pub(crate) fn read_coefficients(bytes: &[u8], coeffs: &mut [f32])
    requires { 4 * length coeffs.old ≤ length bytes.now }
{
    let n = coeffs.len();
    for i in 0..n {
        coeffs[i] = shaping::coefficient_of(word_at(bytes, n, i));
    }
}

pub(crate) fn read_codes(bytes: &[u8], codes: &mut [u16])
    requires { 2 * length codes.old ≤ length bytes.now }
{
    let n = codes.len();
    for i in 0..n {
        codes[i] = code_at(bytes, n, i);
    }
}
