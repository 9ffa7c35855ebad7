// What holds of keyring files and keyrings by their definitions alone.
ghost use Rattle.std.specs.Prelude.{◌≡◌, ◌↔◌, ℕ, List, Contains, IsTrue};
ghost use Rattle.rad_base.specs.declared.names.Nid.{Nid};
ghost use Rattle.rad_base.specs.declared.names.Sig.{Sig};
ghost use Rattle.rad_base.specs.Sizes.{IsNid};
ghost use Rattle.keyring.specs.Contents.{Contents, accept_of, accepts, contents_of, key_of};
ghost use Rattle.keyring.specs.Keys.{BreaksKeyringAt, Keys};
ghost use Rattle.keyring.specs.Laws.{LinesNameKeys};
ghost use Rattle.keyring.specs.Lines.{KeyringLine, accepted};
ghost use Rattle.keyring.specs.Texts.{direct_text};

/// A file is read in one way.
pub fn one_reading()
    ensures { (bytes : List ℕ) (a b : Contents) → Keys bytes a → Keys bytes b → a ≡ b }
{}

/// A file has one first broken line, and none where it is read.
pub fn one_broken_line()
    ensures one { (bytes : List ℕ) (m n : ℕ)
        → BreaksKeyringAt m bytes → BreaksKeyringAt n bytes → m ≡ n }
    ensures none { (bytes : List ℕ) (keyring : Contents) (n : ℕ)
        → Keys bytes keyring → BreaksKeyringAt n bytes → ⊥ }
{}

/// What lines say accepts a signature exactly where one of the lines does.
pub fn accepted_lines()
    ensures { (lines : List KeyringLine) (key : Nid) (message : List ℕ) (sig : Sig)
        → IsTrue (accepts (contents_of lines) key message sig)
        ↔ Contains lines (accepted (accept_of key message sig)) }
{}

/// A text that spells no key by itself stands for a key exactly where one of the lines says so.
pub fn named_lines()
    ensures { LinesNameKeys }
{}

/// A text that spells a key by itself stands for it, whatever the names are.
pub fn direct_texts()
    ensures { (keyring : Contents) (key : Nid)
        → IsNid key → key_of keyring (direct_text key) ≡ Some key }
{}
