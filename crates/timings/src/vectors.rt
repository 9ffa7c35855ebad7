// The bundle of so many commits: how many objects each section has, with the bundle made once more,
// or the names of its objects computed once more. Or the bundle of the repository of three
// delegates, whose names .ci/names compares.
use crate::bundles::{made_of, section_at};
use crate::words::number_at;
use fetch_wire::{Part, Parts, Which};
use git_object::name_of;
use rad_vectors::fixture;

const SECTIONS: [(Which, &str); 3] = [
    (Which::Identity, "identity"),
    (Which::Sigs, "sigs"),
    (Which::Tips, "tips"),
];

// How many objects there are, once the name of each was computed.
fn named(parts: &Parts) -> u64 {
    let mut count = 0u64;
    for index in 0..parts.len() {
        if let Some(Part::Object(kind, content)) = parts.get(index) {
            let _ = name_of(*kind, content.as_slice());
            count = count.saturating_add(1);
        }
    }
    count
}

// Reads the three sections, prints how many objects each has, and computes each name so often.
fn read(rt: &HostRuntime, bundle: &[u8], times: u32) -> Option<()> {
    let mut place = 20;
    for (which, word) in SECTIONS {
        let (parts, behind) = section_at(rt.alloc(), which, bundle, place)?;
        let mut count = 0;
        for _ in 0..times {
            count = named(&parts);
        }
        println!(rt; "{word} {count}").ok()?;
        place = behind;
    }
    Some(())
}

// Writes the bundle of the repository of three delegates.
fn write_fixture(rt: &HostRuntime) -> Option<()> {
    let made = fixture(rt.alloc()).ok()?;
    rt.write_all(made.bundle.as_slice()).ok()
}

/// Of the bundle of so many commits, from 1 to 100,000, prints how many objects each section has;
/// with the word `make` it is made once more, with `names` their names are computed once more.
pub fn tell(rt: &HostRuntime, commits: u32, wanted: Option<&String>) -> Option<()> {
    let mut made = made_of(rt.alloc(), commits)?;
    let mut times = 1;
    if let Some(word) = wanted {
        match word.as_str() {
            "make" => made = made_of(rt.alloc(), commits)?,
            "names" => times = 2,
            _ => return None,
        }
    }
    read(rt, made.bundle.as_slice(), times)
}

/// Runs by the words: how many commits, with `make` or `names` behind it; or `fixture`.
pub fn run(rt: &HostRuntime, words: &[String]) -> Option<()> {
    if words.first()?.as_str() == "fixture" {
        return write_fixture(rt);
    }
    tell(rt, number_at(words, 0)?, words.get(1))
}
