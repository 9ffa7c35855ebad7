// The program of a node: the command that its words give, over real files.
#![tactic(auto)]

ghost use Rattle.std.specs.Prelude.{◌≡◌};

mod command;
mod generating;
mod import;
mod job;
mod laws;
mod listing;
mod local;
mod making;
mod opening;
mod printing;
mod progress;
mod report;
#[cfg(test)]
mod runs;
mod status;
mod transfer;
mod whole_bytes;

pub use command::{Command, command_of};
pub use laws::bundles_make_one_list_of_entries;
pub use local::run_local;
use progress::{Progress, Watched};
use rad_outside::{FileDisk, FileSource, StdSink};
pub use status::{Status, WhichSource};
use std::env;
use std::fs::File;
use std::io::ErrorKind;
use std::process::ExitCode;

const HELP: &str = "\
usage: rad_node COMMAND

Keeps repositories of the Radicle network in a store: identities, and the
signed branches of each person, as they were accepted.

  rad_node init STORE                   make an empty store; a file that is no
                                        store loses its first nine bytes
  rad_node import STORE KEYRING BUNDLE  take what a bundle offers into the
                                        store, and report it
  rad_node show STORE KEYRING           print each repository's identity and
                                        remotes
  rad_node heads STORE KEYRING          print each repository's canonical head
  rad_node audit STORE KEYRING          read the whole store again, and print
                                        what it counts
  rad_node frames FILE                  print each frame of recorded bytes of
                                        a link
  rad_node gen STORE COMMITS            import a repository that is made by
                                        rule, and report it

  STORE    the file of the store
  KEYRING  the file of names and accepted signatures
  BUNDLE   the file of a repository's objects and signed refs
  FILE     the file of what one end of a link said
  COMMITS  a number from 1 to 100000

  --help     print this text
  --version  print the version

for example:
  rad_node init store
  rad_node import store demo/fixture.keys demo/fixture.bundle

exit status:
   0  done
   1  no command
   2  a file is not read
   3  the report is not written
   4  the store's file failed
   5  no store is made
   6  the store is damaged
   7  the keyring is broken at a line
   9  the bundle or the frames are broken at a byte
  10  something was refused
  11  the store is full
  12  an entry of the store is not legal under the keyring
  13  a store is made already
  15  an object that is read back is another, which no command meets yet
  70  no memory
";

const VERSION: &str = "rad_node 0.1.0\n";

// How a run ends whose words cannot be read: memory was refused, or a word is not UTF-8.
fn refused(kind: ErrorKind) -> Status
    ensures memory { kind ≡ ErrorKind.OutOfMemory → result ≡ Status.NoMemory }
    ensures other { (kind ≡ ErrorKind.OutOfMemory → ⊥) → result ≡ Status.Usage }
{
    if kind == ErrorKind::OutOfMemory {
        Status::NoMemory
    } else {
        Status::Usage
    }
}

// The words behind the program's name. A word that is not UTF-8 is refused.
fn words_of(rt: &HostRuntime) -> Result<Vec<String>, Status> {
    let mut words = Vec::new(rt.alloc());
    let args = match env::args(rt) {
        Ok(args) => args,
        Err(error) => return Err(refused(error.kind())),
    };
    for word in args.skip(1) {
        if words.push(word).is_err() {
            return Err(Status::NoMemory);
        }
    }
    Ok(words)
}

// A copy of the word at a place, or of nothing.
fn path_at(rt: &HostRuntime, words: &[String], place: usize) -> Result<String, Status> {
    let path = match words.get(place) {
        Some(word) => word.as_str(),
        None => "",
    };
    match String::from_str(rt.alloc(), path) {
        Ok(path) => Ok(path),
        Err(_) => Err(Status::NoMemory),
    }
}

// Prints a text to standard output.
fn print(rt: &HostRuntime, text: &str) -> Status {
    match print!(rt; "{text}") {
        Ok(()) => Status::Ok,
        Err(_) => Status::WriteFault,
    }
}

// The line of progress while an import reads its bundle.
fn progress_of(rt: &HostRuntime, words: &[String], bundle: &str) -> Option<Progress> {
    match words.first() {
        Some(word) if word.as_str() == "import" => Progress::of_file(rt, bundle),
        _ => None,
    }
}

// The place of the word that names the input: the bundle behind the store and the keyring, or the
// file of frames.
fn input_place(words: &[String]) -> usize {
    match words.first() {
        Some(word) if word.as_str() == "frames" => 1,
        _ => 3,
    }
}

// Runs a command of the words over real files.
fn run_command(rt: &HostRuntime, words: &[String]) -> Result<Status, Status> {
    let mut disk = FileDisk::new(*rt, path_at(rt, words, 1)?);
    let mut keys = FileSource::new(*rt, path_at(rt, words, 2)?);
    let path = path_at(rt, words, input_place(words))?;
    let progress = progress_of(rt, words, path.as_str());
    let mut input = Watched::new(FileSource::new(*rt, path), progress);
    let mut out = StdSink::new(*rt);
    let status = run_local(
        rt.alloc(),
        words,
        &mut disk,
        &mut keys,
        &mut input,
        &mut out,
    );
    input.clear();
    Ok(status)
}

fn run(rt: &HostRuntime) -> Result<Status, Status> {
    let words = words_of(rt)?;
    if let [word] = words.as_slice() {
        match word.as_str() {
            "--help" => return Ok(print(rt, HELP)),
            "--version" => return Ok(print(rt, VERSION)),
            _ => {}
        }
    }
    run_command(rt, &words)
}

// A file without bytes that refuses writes. It takes the lowest descriptor that is free.
fn open_nothing(rt: &HostRuntime) -> Result<File, Status> {
    match File::open(rt, "/dev/null") {
        Ok(nothing) => Ok(nothing),
        Err(_) => Err(Status::WriteFault),
    }
}

// Runs with the descriptors 0, 1 and 2 taken to its end. Where one of them is closed, no file of
// the run then stands in its place, and what is printed there goes into none.
fn run_apart(rt: &HostRuntime) -> Result<Status, Status> {
    let _input = open_nothing(rt)?;
    let _output = open_nothing(rt)?;
    let _error = open_nothing(rt)?;
    run(rt)
}

fn main(rt: HostRuntime) -> ExitCode {
    let status = match run_apart(&rt) {
        Ok(status) => status,
        Err(status) => status,
    };
    if status != Status::Ok {
        let _ = eprintln!(rt; "rad_node: {status}");
    }
    ExitCode::from(status.exit())
}
