// Laws of the images of stores.
ghost use Rattle.std.specs.Prelude.{◌≡◌, ℕ, List};
ghost use Rattle.repo_entries.specs.Items.{Item};
ghost use Rattle.object_store.specs.Opened.{IsStoreImage};

/// Bytes are a journal of the bodies of at most one list of entries.
pub fn bytes_have_one_list()
    ensures { (bytes : List ℕ) (these those : List Item) → IsStoreImage bytes these
        → IsStoreImage bytes those → these ≡ those }
{}
