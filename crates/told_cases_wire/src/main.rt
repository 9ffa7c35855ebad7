// Told cases of what goes over links: frames, messages, sections, requests, filters, rules, and
// announcements that are heard in turn.
#![tactic(auto)]

mod filters;
mod frames;
mod heard;
mod messages;
mod requests;
mod rules;
mod sections;
mod tables;
mod wires;

use std::process::ExitCode;
use tables::{NAMES, Wire};
use told_rows::running::run;

fn main(rt: HostRuntime) -> ExitCode {
    run(&rt, &Wire, &NAMES)
}
