// Laws of the bodies of entries.
ghost use Rattle.std.specs.Prelude.{◌≡◌, ℕ, List};
ghost use Rattle.repo_entries.specs.Items.{Item};
ghost use Rattle.entry_bodies.specs.Bodies.{SpellsItem};

/// Bytes are the body of at most one entry.
pub fn bodies_have_one_item()
    ensures { (bytes : List ℕ) (a b : Item) → SpellsItem a bytes → SpellsItem b bytes → a ≡ b }
{}
