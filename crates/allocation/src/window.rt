// BAPTAB as a window: an address that the standard holds to 0 .. 63 is read 111 entries further on without being held.
ghost use Rattle.std.specs.Prelude.{◌≡◌};
ghost use Rattle.allocation.specs.Held as definition;

// BAPTAB of crate `tables` with 111 entries before it, for addresses down to -96 and so that the part that is all 0 fills whole words, and 97 behind
// it, for those above 63. The table itself is stored once.
pub fn window() -> [u8; 272]
    ensures { result ≡ definition.window }
{
    let mut window = [0u8; 272];
    window[175..].fill(15);
    window[111..175].copy_from_slice(tables::baptab());
    window
}
