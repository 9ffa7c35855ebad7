// Laws of the entries that a keep over a store has.
ghost use Rattle.std.specs.Prelude.{List, None, ℕ};
ghost use Rattle.std.specs.List.{AllByRecursion};
ghost use Rattle.ref_journal.specs.Holds.{Holds};
ghost use Rattle.repo_entries.specs.Items.{Item};
ghost use Rattle.entry_bodies.specs.Bodies.{HasBody};
ghost use Rattle.legal_history.specs.Durable.{durable_part};
ghost use Rattle.legal_history.specs.Histories.{Legal};
ghost use Rattle.object_store.specs.Bodies.{bodies_of};
ghost use Rattle.object_store.specs.Stores.{StandsFor};
ghost use Rattle.object_store.specs.declared.store.Store.{Store};
ghost use Rattle.store_keep.specs.Made.{IsImageOf, IsMade, IsPastImage, ReopensLegal, Start};

use rad_outside::Disk;

/// Each image of a disk is a journal of the durable part of the entries that were made, or of it
/// and then the entry that the last missed one names. The durable part is legal, and so is what
/// stands in each image. Each image since the start, at any moment, is the same of some first of
/// these entries, those of the start among them.
pub fn images_are_of_what_was_made<D: Disk>()
    ensures images { (store : Store D) (start : Start D) (items : List Item)
        → IsMade D.reads_as D.images D.moment D.images_since store start items
        → (image : List ℕ) → D.images store.journal.disk image → IsImageOf items image }
    ensures legal { (store : Store D) (start : Start D) (items : List Item)
        → IsMade D.reads_as D.images D.moment D.images_since store start items
        → Legal store.keyring (durable_part items) }
    ensures reopened { (store : Store D) (start : Start D) (items : List Item)
        → IsMade D.reads_as D.images D.moment D.images_since store start items
        → (image : List ℕ) → D.images store.journal.disk image
        → ReopensLegal store.keyring image }
    ensures moments { (store : Store D) (start : Start D) (items : List Item)
        → IsMade D.reads_as D.images D.moment D.images_since store start items
        → (image : List ℕ) → D.images_since store.journal.disk (D.moment start.disk) image
        → IsPastImage store.keyring start.items items image }
{}

/// The entries of a store that was opened are made, from there on.
pub fn opened_stores_are_made<D: Disk>()
    ensures { (store : Store D) (items : List Item) → AllByRecursion HasBody items
        → StandsFor store items
        → Holds D.reads_as D.images store.journal (bodies_of items) None
        → IsMade D.reads_as D.images D.moment D.images_since store
        (record { disk = store.journal.disk; items = items }) items }
{}
