// Modes of the entries of a tree.
ghost use Rattle.std.specs.Prelude.{◌≡◌};

/// What an entry of a tree is.
#[derive(Clone, Copy, Debug, PartialEq, Eq)]
pub enum Mode {
    /// A file, 100644.
    File,
    /// A file that may be run, 100755.
    Executable,
    /// A file that its group may write, 100664, as early versions of Git made them.
    GroupFile,
    /// A symbolic link, 120000.
    Symlink,
    /// A tree, 40000.
    Directory,
    /// A commit of another repository, 160000.
    Gitlink,
}

impl Mode {
    ghost use Rattle.git_object.specs.Grammar.{mode_text};

    /// The text of the mode, as `100644`.
    pub fn text(self) -> &'static [u8]
        ensures { result.now ≡ mode_text self }
    {
        match self {
            Mode::File => b"100644",
            Mode::Executable => b"100755",
            Mode::GroupFile => b"100664",
            Mode::Symlink => b"120000",
            Mode::Directory => b"40000",
            Mode::Gitlink => b"160000",
        }
    }
}
