// The scripts of drills, as another program made them.
ghost use Rattle.std.specs.Prelude.{◌≤◌};

use gi_drill::write_script;
use std::{io, str};

/// Prints of the scripts of 0, 1, 3 and 151 rounds how many lines and bytes they have, and a hash;
/// and how that of 3 begins.
pub fn print_scripts(rt: &HostRuntime) -> io::Result<()> {
    print_script(rt, 0)?;
    print_script(rt, 1)?;
    print_script(rt, 3)?;
    print_script(rt, 151)?;
    print_beginning(rt, 3)
}

fn print_script(rt: &HostRuntime, rounds: u32) -> io::Result<()>
    requires { rounds ≤ 10000 }
{
    let script = write_script(rt.alloc(), rounds)?;
    let bytes = script.as_slice();
    let lines = bytes.iter().filter(|b| **b == b'\n').count();
    println!(rt; "# the script of {rounds} rounds: lines, bytes, their FNV-1a hash of 64 bits")?;
    println!(rt; "{lines} {} {}", bytes.len(), hash(bytes))
}

fn print_beginning(rt: &HostRuntime, rounds: u32) -> io::Result<()>
    requires { rounds ≤ 10000 }
{
    let script = write_script(rt.alloc(), rounds)?;
    println!(rt; "# how the script of {rounds} rounds begins")?;
    let text = str::from_utf8(script.as_slice()).unwrap_or("no text");
    for line in text.lines().take(6) {
        println!(rt; "{line}")?;
    }
    Ok(())
}

fn hash(bytes: &[u8]) -> u64 {
    let mut hash: u64 = 14_695_981_039_346_656_037;
    for b in bytes {
        hash = (hash ^ u64::from(*b)).wrapping_mul(1_099_511_628_211);
    }
    hash
}
