// `BitWriter` by `&mut`: two thin functions over the core by value, and a call that lends a writer of its own.
ghost use Rattle.std.specs.Prelude.{◌≡◌, ◌++◌, ◌+◌, ◌*◌, ◌≤◌, length};
ghost use Rattle.bits.specs.Answer.{stored};
ghost use Rattle.bits.specs.Bytes.{bytes_for, bytes_of, after};
ghost use Rattle.bits.specs.Field.{field};
ghost use Rattle.bits.specs.Write.{Ready, Put, place, written, whole_bytes};
ghost use Rattle.lent_writer.specs.Closed.{closed_at};

// `BitWriter::write_u32(v, n)`: appends the low `n` bits of `v`, the highest first.
pub fn write_u32(w: &mut bits::Writer, out: &mut [u8], v: u32, n: u32)
    requires n_bound { n ≤ 16 }
    requires ready { Ready w.old (length out.old) n }
    ensures put { Put out.old w.old (field n v) out.new w.new }
    ensures w_after { place w.new ≡ place w.old + n }
    ensures out_after { out.new ≡ whole_bytes (written out.old w.old ++ field n v) ++ after w.new.at out.old }
{
    *w = bits::put(out, *w, v, n);
}

// Closes with zero bits to the byte, and leaves the writer at the byte behind; answers the number of bytes that are out.
pub fn close(w: &mut bits::Writer, out: &mut [u8]) -> usize
    requires { Ready w.old (length out.old) 0 }
    ensures value { result ≡ bytes_for (place w.old) }
    ensures w_after { w.new ≡ closed_at result }
    ensures out_after { out.new ≡ bytes_of (written out.old w.old) ++ after result out.old }
{
    let at = bits::finish(out, *w);
    *w = bits::Writer {
        at,
        acc: 0,
        count: 0,
    };
    at
}

// One field alone at the front of an output; answers the number of bytes that are out.
pub fn write_field(out: &mut [u8], v: u32, n: u32) -> usize
    requires n_bound { n ≤ 16 }
    requires n_in_bounds { n ≤ length out.old * 8 }
    ensures value { result ≡ bytes_for n }
    ensures out_after { out.new ≡ stored (field n v) out.old }
{
    let mut w = bits::start();
    write_u32(&mut w, out, v, n);
    close(&mut w, out)
}
