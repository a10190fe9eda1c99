// Worked cases of calls, read as steps: one part after another, each over a file of steps of its own. `make.py` writes these files, and the
// lines that are expected, which it has the reference print.
#![tactic(auto)]

mod differences;
mod fits;
mod networks;
mod over_references;
mod shared;
mod trees;

use crate::shared::cases::run;
use crate::shared::held::Held;
use std::io;

fn main(rt: HostRuntime) -> io::Result<()> {
    let held = Held::alike(0);
    run(&rt, "differences", &mut differences::Work { held })?;
    let held = Held::alike(0);
    run(&rt, "networks", &mut networks::Work { held })?;
    run(&rt, "trees", &mut trees::Work::new())?;
    run(&rt, "references", &mut over_references::Work::new())?;
    run(&rt, "fits", &mut fits::Work::new())
}
