//! Timings of what the program stands on, for the scripts of bench/: each makes what it goes over by
//! rule, does it, and prints what comes of it.
#![tactic(auto)]

mod accepting;
mod announced;
mod bundles;
mod filling;
mod frames;
mod graph;
mod hearing;
mod objects;
mod offers;
mod pausing;
mod replies;
mod slices;
mod taking;
mod vectors;
mod walks;
mod words;

use pausing::Pauses;
use std::env;
use std::process::ExitCode;

// All timings in small, without pauses.
fn run_small(rt: &HostRuntime) -> Option<()> {
    println!(rt; "-- graph").ok()?;
    graph::tell(rt, 300, None)?;
    println!(rt; "-- frames").ok()?;
    frames::tell(rt, 3, 1000)?;
    println!(rt; "-- slices").ok()?;
    slices::tell_all(rt, 20)?;
    println!(rt; "-- announcements").ok()?;
    hearing::tell(rt, 340, Pauses::Never)?;
    println!(rt; "-- vectors").ok()?;
    vectors::tell(rt, 20, None)?;
    println!(rt; "-- replies").ok()?;
    replies::tell(rt, 20, Pauses::Never)
}

// Runs the timing that the first word names, by the further words, or all in small.
fn run(rt: &HostRuntime) -> Option<()> {
    let mut words = Vec::new(rt.alloc());
    for word in env::args(rt).ok()?.skip(1) {
        words.push(word).ok()?;
    }
    let Some((name, further)) = words.split_first() else {
        return run_small(rt);
    };
    match name.as_str() {
        "graph" => graph::run(rt, further),
        "frames" => frames::run(rt, further),
        "slices" => slices::run(rt, further),
        "announcements" => hearing::run(rt, further),
        "vectors" => vectors::run(rt, further),
        "replies" => replies::run(rt, further),
        _ => None,
    }
}

fn main(rt: HostRuntime) -> ExitCode {
    if run(&rt).is_some() {
        return ExitCode::SUCCESS;
    }
    let _ = println!(rt; "failed");
    ExitCode::FAILURE
}
