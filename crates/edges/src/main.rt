// The test program. It prints the tables that the standard publishes; the file `stdout` says what that must be, and is made from the papers,
// not by this program.
#![tactic(auto)]

mod tables_printed;

use std::io;

fn main(rt: HostRuntime) -> io::Result<()> {
    tables_printed::all(&rt)
}
