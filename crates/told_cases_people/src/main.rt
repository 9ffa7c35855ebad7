// Told cases of who may say what: keyrings, identity documents and their chains, and signed refs.
#![tactic(auto)]

mod chains;
mod documents;
mod keyrings;
mod objects;
mod refs;
mod signed;
mod tables;

use std::process::ExitCode;
use tables::{NAMES, People};
use told_rows::running::run;

fn main(rt: HostRuntime) -> ExitCode {
    run(&rt, &People, &NAMES)
}
