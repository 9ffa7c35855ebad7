// Told cases of objects: names, grammars, numbers, names of refs, walks over commits, and heads.
#![tactic(auto)]

mod grammar;
mod graphs;
mod heads;
mod names;
mod objects;
mod ref_names;
mod tables;
mod varints;

use std::process::ExitCode;
use tables::{NAMES, Objects};
use told_rows::running::run;

fn main(rt: HostRuntime) -> ExitCode {
    run(&rt, &Objects, &NAMES)
}
