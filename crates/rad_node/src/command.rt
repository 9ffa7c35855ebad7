// The command that words give.
ghost use Rattle.std.specs.Prelude.{◌↔◌, ℕ, IfNone, IfSome, IsTrue};
ghost use Rattle.rad_node.specs.Commands.{ArePaths, IsCommitCount, IsNoCommand, IsPathAndCount};
ghost use Rattle.rad_node.specs.Commands.{Says};

use itoa::Buffer;

/// A command: of the store, or of a file of frames.
#[derive(Clone, Copy, Debug, PartialEq, Eq)]
pub enum Command {
    /// Makes an empty store.
    Init,
    /// Takes what a bundle offers into the store.
    Import,
    /// Prints the identities and the remotes of the store.
    Show,
    /// Prints the canonical heads.
    Heads,
    /// Prints what the store counts.
    Audit,
    /// Prints the frames of a file.
    Frames,
    /// Imports the repository that is made by rule with so many commits.
    Gen(u32),
}

/// The command that the words give, if they give one: `init <store>`,
/// `import <store> <keys> <bundle>`, `show <store> <keys>`, `heads <store> <keys>`,
/// `audit <store> <keys>`, `frames <file>`, `gen <store> <commits>`. No path is empty. The number of
/// commits is from 1 to 100,000, in decimal without a leading 0.
pub fn command_of(words: &[String]) -> Option<Command>
    ensures some { IfSome result (Says words.now) }
    ensures none { IfNone result (IsNoCommand words.now) }
{
    let (name, paths) = words.split_first()?;
    match name.as_str() {
        "init" if are_paths(1, paths) => Some(Command::Init),
        "import" if are_paths(3, paths) => Some(Command::Import),
        "show" if are_paths(2, paths) => Some(Command::Show),
        "heads" if are_paths(2, paths) => Some(Command::Heads),
        "audit" if are_paths(2, paths) => Some(Command::Audit),
        "frames" if are_paths(1, paths) => Some(Command::Frames),
        "gen" => count_behind_path(paths).map(Command::Gen),
        _ => None,
    }
}

// Whether the words are so many paths.
fn are_paths(count: usize, paths: &[String]) -> bool
    ensures { IsTrue result ↔ ArePaths count paths.now }
{
    paths.len() == count && paths.iter().all(|path| !path.is_empty())
}

// The number of commits behind a path, if the words are these two.
fn count_behind_path(words: &[String]) -> Option<u32>
    ensures some { IfSome result (IsPathAndCount words.now) }
    ensures none { IfNone result ((count : ℕ) → IsPathAndCount words.now count → ⊥) }
{
    match words {
        [path, word] if !path.is_empty() => commit_count(word.as_str()),
        _ => None,
    }
}

// The number of commits that a word says.
fn commit_count(word: &str) -> Option<u32>
    ensures some { IfSome result (IsCommitCount word.now) }
    ensures none { IfNone result ((count : ℕ) → IsCommitCount word.now count → ⊥) }
{
    let count = match word.parse::<u32>() {
        Ok(count) => count,
        Err(_) => return None,
    };
    if is_commit_count(word, count) {
        Some(count)
    } else {
        None
    }
}

// Whether a word is this number of commits.
fn is_commit_count(word: &str, count: u32) -> bool
    ensures { IsTrue result ↔ IsCommitCount word.now count }
{
    let mut buffer = Buffer::new();
    1 <= count && count <= 100_000 && buffer.format(count) == word
}
