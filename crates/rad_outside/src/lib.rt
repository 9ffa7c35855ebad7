//! What a node is handed from outside: sources, sinks, links, disks and clocks, in memory and real.
#![tactic(auto)]

mod call;
mod call_log;
mod clock;
mod crash;
mod disk;
mod doors;
mod failed;
mod failing_calls;
#[cfg(test)]
mod fake_files;
mod file_disk;
mod file_source;
#[cfg(test)]
mod file_tests;
mod fill;
mod interrupted;
mod link;
mod memory_clock;
mod memory_disk;
mod memory_doors;
mod memory_link;
mod memory_sink;
mod memory_source;
#[cfg(test)]
mod network_tests;
mod path_file;
mod sink;
mod source;
mod std_sink;
mod system_clock;
mod tcp_doors;
mod tcp_link;
#[cfg(test)]
mod tests;

pub use clock::Clock;
pub use disk::Disk;
pub use doors::Doors;
pub use failed::Failed;
pub use file_disk::FileDisk;
pub use file_source::FileSource;
pub use fill::Fill;
pub use link::Link;
pub use memory_clock::MemClock;
pub use memory_disk::MemDisk;
pub use memory_doors::MemDoors;
pub use memory_link::MemLink;
pub use memory_sink::MemSink;
pub use memory_source::MemSource;
pub use sink::Sink;
pub use source::Source;
pub use std_sink::StdSink;
pub use system_clock::SysClock;
pub use tcp_doors::TcpDoors;
pub use tcp_link::TcpLink;
