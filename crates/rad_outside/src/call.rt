// A call that a disk in memory has had.

// What was asked, with the bytes that were to be written and whether the call failed.
#[derive(Drop)]
pub(crate) enum Call {
    // A size or a read.
    Look,
    Write(u64, Vec<u8>, bool),
    Sync(bool),
}
