// Running tables over files, and printing what comes of it.
use crate::tally::Tally;
use std::alloc::Global;
use std::process::ExitCode;
use std::{env, fs};

/// The tables of a program.
pub trait Tables {
    /// Compares what a file of a table tells. `keys` are the bytes of the file beside it that is
    /// named after the table and ends in `.keys`, if there is one. None: there is no such table, a
    /// row is not in form, or memory was refused.
    fn tally(&self, alloc: Global, table: &str, text: &str, keys: &[u8]) -> Option<Tally>;
}

// Prints the rows that differ, and how many rows were answered as told.
fn print(rt: &HostRuntime, table: &str, tally: &Tally) -> Option<bool> {
    for line in tally.lines() {
        println!(rt; "{table} {line}").ok()?;
    }
    let (same, asked) = (tally.same(), tally.asked());
    println!(rt; "{table}: {same} of {asked}").ok()?;
    Some(same == asked)
}

// The folder of a file, with the slash at its end.
fn folder_of(file: &str) -> &str {
    match file.rsplit_once('/') {
        Some((folder, _)) => match file.get(..folder.len().saturating_add(1)) {
            Some(folder) => folder,
            None => "",
        },
        None => "",
    }
}

// Runs a table over a file: whether all rows are answered as told. None: it cannot be read.
fn compare<T: Tables>(rt: &HostRuntime, tables: &T, table: &str, file: &str) -> Option<bool> {
    let alloc = rt.alloc();
    let text = fs::read_to_string(rt, file).ok()?;
    let folder = folder_of(file);
    let path = format!(in alloc; "{folder}{table}.keys").ok()?;
    let keys = fs::read(rt, path.as_str()).unwrap_or(Vec::new(alloc));
    let tally = tables.tally(alloc, table, text.as_str(), &keys)?;
    print(rt, table, &tally)
}

// As `compare`; of a file that cannot be read it prints so.
fn compare_or_tell<T: Tables>(rt: &HostRuntime, tables: &T, table: &str, file: &str) -> bool {
    match compare(rt, tables, table, file) {
        Some(same) => same,
        None => {
            let _ = println!(rt; "{table}: {file} cannot be read");
            false
        }
    }
}

// Runs each table over the file of its name.
fn compare_all<T: Tables>(rt: &HostRuntime, tables: &T, names: &[&str]) -> Option<bool> {
    let mut same = true;
    for name in names {
        let file = format!(in rt.alloc(); "{name}.txt").ok()?;
        same = compare_or_tell(rt, tables, name, file.as_str()) && same;
    }
    Some(same)
}

// Runs the tables that the words name, or all of them.
fn compare_words<T: Tables>(rt: &HostRuntime, tables: &T, names: &[&str]) -> Option<bool> {
    let mut same = true;
    let mut all = true;
    for word in env::args(rt).ok()?.skip(1) {
        if let Some((table, file)) = word.as_str().split_once('=') {
            all = false;
            same = compare_or_tell(rt, tables, table, file) && same;
        } else if word.as_str() != "--all" {
            println!(rt; "{word} is neither TABLE=FILE nor --all").ok()?;
            return Some(false);
        }
    }
    if all {
        compare_all(rt, tables, names)
    } else {
        Some(same)
    }
}

/// Runs tables: with no word, or `--all`, each of these names over the file `NAME.txt`; with words
/// `NAME=FILE` those. The exit is 0 where all rows are answered as told, else 1.
pub fn run<T: Tables>(rt: &HostRuntime, tables: &T, names: &[&str]) -> ExitCode {
    match compare_words(rt, tables, names) {
        Some(true) => ExitCode::from(0),
        _ => ExitCode::from(1),
    }
}
