// How a run ends, with its text and its exit number.
ghost use Rattle.std.specs.Prelude.{◌≡◌, Some};
ghost use Rattle.rad_node.specs.Ends.{exit_of, source_text, status_text};

use commit_graph::Changed;
use std::fmt;

/// A source that a run reads. As yet no command reads a rules file.
#[derive(Clone, Copy, Debug, PartialEq, Eq)]
pub enum WhichSource {
    /// The keyring file.
    Keys,
    /// The rules file.
    Rules,
    /// The bundle.
    Input,
}

impl fmt::Display for WhichSource {
    ghost output = { λ which. Some (source_text which) };

    fn fmt<W: fmt::Write>(&self, f: &mut fmt::Formatter<W>) -> fmt::Result {
        match self {
            WhichSource::Keys => f.write_str("keys"),
            WhichSource::Rules => f.write_str("rules"),
            WhichSource::Input => f.write_str("input"),
        }
    }
}

/// How a run ends. Its text is what the program prints of it to standard error.
#[derive(Clone, Copy, Debug, PartialEq, Eq)]
pub enum Status {
    /// All was done.
    Ok,
    /// The words are no command.
    Usage,
    /// A call of that source failed.
    ReadFault(WhichSource),
    /// A call of the sink failed. A prefix of the report was given.
    WriteFault,
    /// A call of the disk failed.
    DiskFault,
    /// No store is made on the disk.
    Unmade,
    /// The store's bytes are no journal of entries: the least place, in bytes from 0, that shows it.
    Damaged(u64),
    /// The keyring file's first broken line, counted from 1; 0 where it is too long.
    KeyringBad(u64),
    /// The bundle's broken unit, the one in which it ends, or where it has ended and bytes follow:
    /// the place in bytes from 0.
    InputBad(u64),
    /// The offer or one of its remotes was refused, or its sections are too long. The report of an
    /// import says why.
    SomeRefused,
    /// The store would be longer than 2^40 bytes.
    Full,
    /// The store's first entry that is not legal under the keyring, counted from 1.
    NotLegal(u64),
    /// A store is made on the disk.
    AlreadyMade,
    /// Bytes that were read back have another name.
    Changed(Changed),
    /// Memory was refused.
    NoMemory,
}

impl Status {
    /// The number with which the program ends.
    pub fn exit(self) -> u8
        ensures { result ≡ exit_of self }
    {
        match self {
            Status::Ok => 0,
            Status::Usage => 1,
            Status::ReadFault(_) => 2,
            Status::WriteFault => 3,
            Status::DiskFault => 4,
            Status::Unmade => 5,
            Status::Damaged(_) => 6,
            Status::KeyringBad(_) => 7,
            Status::InputBad(_) => 9,
            Status::SomeRefused => 10,
            Status::Full => 11,
            Status::NotLegal(_) => 12,
            Status::AlreadyMade => 13,
            Status::Changed(_) => 15,
            Status::NoMemory => 70,
        }
    }
}

impl fmt::Display for Status {
    ghost output = { λ status. Some (status_text status) };

    fn fmt<W: fmt::Write>(&self, f: &mut fmt::Formatter<W>) -> fmt::Result {
        match self {
            Status::Ok => f.write_str("ok"),
            Status::Usage => f.write_str("usage"),
            Status::ReadFault(which) => write!(f, "read fault {which}"),
            Status::WriteFault => f.write_str("write fault"),
            Status::DiskFault => f.write_str("disk fault"),
            Status::Unmade => f.write_str("unmade"),
            Status::Damaged(place) => write!(f, "damaged {place}"),
            Status::KeyringBad(line) => write!(f, "keyring line {line}"),
            Status::InputBad(place) => write!(f, "input {place}"),
            Status::SomeRefused => f.write_str("some refused"),
            Status::Full => f.write_str("full"),
            Status::NotLegal(n) => write!(f, "not legal {n}"),
            Status::AlreadyMade => f.write_str("already made"),
            Status::Changed(change) => write!(f, "changed {}", change.place),
            Status::NoMemory => f.write_str("no memory"),
        }
    }
}

#[cfg(test)]
mod tests {
    use super::{Status, WhichSource};
    use commit_graph::Changed;
    use rad_base::Oid;
    use std::test::Fail;

    #[test]
    fn each_end_has_its_number_and_its_text(rt: HostRuntime) -> Result<(), Fail> {
        let change = Changed {
            name: Oid([1; 20]),
            found: Oid([2; 20]),
            place: 17,
        };
        let cases = [
            (Status::Ok, 0, "ok"),
            (Status::Usage, 1, "usage"),
            (Status::ReadFault(WhichSource::Keys), 2, "read fault keys"),
            (Status::ReadFault(WhichSource::Rules), 2, "read fault rules"),
            (Status::ReadFault(WhichSource::Input), 2, "read fault input"),
            (Status::WriteFault, 3, "write fault"),
            (Status::DiskFault, 4, "disk fault"),
            (Status::Unmade, 5, "unmade"),
            (Status::Damaged(8), 6, "damaged 8"),
            (Status::KeyringBad(2), 7, "keyring line 2"),
            (Status::InputBad(9), 9, "input 9"),
            (Status::SomeRefused, 10, "some refused"),
            (Status::Full, 11, "full"),
            (Status::NotLegal(3), 12, "not legal 3"),
            (Status::AlreadyMade, 13, "already made"),
            (Status::Changed(change), 15, "changed 17"),
            (Status::NoMemory, 70, "no memory"),
        ];
        for (status, number, text) in &cases {
            assert_eq!(rt; status.exit(), *number);
            let printed = format!(in rt.alloc(); "{status}")?;
            assert_eq!(rt; printed.as_str(), *text);
        }
        Ok(())
    }
}
