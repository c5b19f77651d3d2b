// Shows the packets of a large table, as gn_show does: a program has one input to be run on, and this is another.
#![tactic(auto)]

use show::run::run;
use std::io;

fn main(rt: HostRuntime) -> io::Result<()> {
    run(&rt)
}
