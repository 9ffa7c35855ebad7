// Told cases of what stands: journals, offers that are judged, and stores that are opened.
#![tactic(auto)]

mod journals;
mod judged;
mod replies;
mod stores;
mod tables;

use std::process::ExitCode;
use tables::{NAMES, Stores};
use told_rows::running::run;

fn main(rt: HostRuntime) -> ExitCode {
    run(&rt, &Stores, &NAMES)
}
