// Shows the fields of packets: reads lines of hexadecimal octets, and writes what stands in them.
#![tactic(auto)]

use show::run::run;
use std::io;

fn main(rt: HostRuntime) -> io::Result<()> {
    run(&rt)
}
