// The judging of offers and the putting of batches over slices in memory.
use crate::filling::{BATCH, Filling, NamedBatch};
use crate::objects::file_of;
use crate::offers::Offered;
use crate::pausing::{Pauses, pause};
use crate::words::number_at;
use git_object::Kind;
use rad_base::{Bytes, Oid, Rid};
use repo_slice::{Batch, Slice};
use std::alloc::Global;

// What is timed over a slice.
#[derive(Clone, Copy, Debug)]
enum Task {
    // The judging of new remotes of so many nodes over a chain that has all its objects.
    Whole(u32),
    // The same over a chain that lacks its first file.
    Lacking(u32),
    // The putting of batches.
    Puts,
}

const TASKS: [(&str, Task); 5] = [
    ("judge_1", Task::Whole(1)),
    ("judge_1024", Task::Whole(1024)),
    ("judge_1_without_a_blob", Task::Lacking(1)),
    ("judge_1024_without_a_blob", Task::Lacking(1024)),
    ("puts", Task::Puts),
];

// How a task is done.
#[derive(Clone, Copy, Debug)]
struct Way {
    // The size of the slice: commits of a chain, or objects.
    size: u32,
    // How many times.
    times: u32,
    pauses: Pauses,
}

// A batch of the files of the numbers from one on.
fn batch_from(alloc: Global, first: u32) -> Option<NamedBatch> {
    let mut batch = Batch::new(alloc);
    for i in 0..BATCH {
        let content = Bytes::of(file_of(alloc, first.saturating_add(i))?);
        batch.push(Kind::Blob, content).ok()?;
    }
    NamedBatch::of(alloc, batch).ok()
}

// So many batches of the files of the numbers from one on.
fn batches_from(alloc: Global, first: u32, count: u32) -> Option<Vec<NamedBatch>> {
    let mut batches = Vec::new(alloc);
    let mut first = first;
    for _ in 0..count {
        batches.push(batch_from(alloc, first)?).ok()?;
        first = first.saturating_add(BATCH);
    }
    Some(batches)
}

// A slice with the files of the numbers below a size.
fn filled(alloc: Global, size: u32) -> Option<Slice> {
    let mut filling = Filling::new(alloc, &Rid(Oid([0; 20])));
    for number in 0..size {
        filling
            .add(alloc, Kind::Blob, file_of(alloc, number)?)
            .ok()?;
    }
    filling.finish(alloc).ok()
}

// Puts batches into a slice, and answers how many objects it has then.
fn do_puts(rt: &HostRuntime, way: Way) -> Option<u64> {
    let alloc = rt.alloc();
    let mut slice = filled(alloc, way.size)?;
    let batches = batches_from(alloc, way.size, way.times)?;
    pause(rt, way.pauses, "ready")?;
    for batch in batches {
        batch.put(alloc, &mut slice).ok()?;
    }
    pause(rt, way.pauses, "done")?;
    Some(slice.count())
}

// Judges an offer, and answers how many remotes advance.
fn do_judging(rt: &HostRuntime, way: Way, nodes: u32, is_whole: bool) -> Option<u64> {
    let mut offered = Offered::new(rt.alloc(), way.size, nodes, is_whole)?;
    let mut count = 0;
    pause(rt, way.pauses, "ready")?;
    for _ in 0..way.times {
        count = offered.advancing(rt.alloc())?;
    }
    pause(rt, way.pauses, "done")?;
    Some(count as u64)
}

// Does a task, and answers what comes of it.
fn perform(rt: &HostRuntime, task: Task, way: Way) -> Option<u64> {
    match task {
        Task::Whole(nodes) => do_judging(rt, way, nodes, true),
        Task::Lacking(nodes) => do_judging(rt, way, nodes, false),
        Task::Puts => do_puts(rt, way),
    }
}

// Does the tasks of a name, or all of them, and prints what comes of each.
fn perform_some(rt: &HostRuntime, wanted: Option<&String>, way: Way) -> Option<()> {
    for (name, task) in TASKS {
        if wanted.is_none_or(|word| word.as_str() == name) {
            let answer = perform(rt, task, way)?;
            println!(rt; "{name} {answer}").ok()?;
        }
    }
    Some(())
}

/// Does each task once, over a chain of so many commits or a slice of so many objects, and prints
/// what comes of it.
pub fn tell_all(rt: &HostRuntime, size: u32) -> Option<()> {
    let way = Way {
        size,
        times: 1,
        pauses: Pauses::Never,
    };
    perform_some(rt, None, way)
}

/// Runs by the words: the size; and the name of a task that is timed, with how many times it is
/// done (1 where that is not said).
pub fn run(rt: &HostRuntime, words: &[String]) -> Option<()> {
    let size = number_at(words, 0)?;
    let Some(wanted) = words.get(1) else {
        return tell_all(rt, size);
    };
    let way = Way {
        size,
        times: number_at(words, 2).unwrap_or(1),
        pauses: Pauses::Timed,
    };
    perform_some(rt, Some(wanted), way)
}
