// What holds of signed refs by their definitions alone.
ghost use Rattle.rad_base.specs.declared.names.Nid.{Nid};
ghost use Rattle.rad_base.specs.declared.names.Oid.{Oid};
ghost use Rattle.rad_base.specs.declared.names.Rid.{Rid};
ghost use Rattle.commit_graph.specs.Objects.{ObjectMap};
ghost use Rattle.keyring.specs.Contents.{Contents};
ghost use Rattle.signed_refs.specs.Laws.{OneRefusal, OneSigned, RefsAreReadBack};
ghost use Rattle.signed_refs.specs.Laws.{SignedIsRefusedByFaultAlone, SignedStays};
ghost use Rattle.signed_refs.specs.Said.{Says};
ghost use Rattle.signed_refs.specs.Signed.{HasBlob, Signed};
ghost use Rattle.commit_graph.specs.Objects.{Grows};
ghost use Rattle.std.specs.Prelude.{◌≡◌, ℕ, List, Result, Err};
ghost use Rattle.signed_refs.specs.Lines.{Line, SpellsRefs};
ghost use Rattle.signed_refs.specs.Readings.{ReadsRefs};
ghost use Rattle.signed_refs.specs.declared.fault.RefsFault.{RefsFault};

/// Bytes are read in one way, want of memory apart.
pub fn one_reading()
    ensures { (bytes : List ℕ) (a b : Result (List Line) RefsFault)
        → ReadsRefs bytes a → ReadsRefs bytes b
        → (a ≡ Err RefsFault.NoMemory → ⊥) → (b ≡ Err RefsFault.NoMemory → ⊥) → a ≡ b }
{}

/// What was written is read back, and refs have one spelling.
pub fn refs_are_read_back()
    ensures back { RefsAreReadBack }
    ensures one { (lines : List Line) (a b : List ℕ)
        → SpellsRefs lines a → SpellsRefs lines b → a ≡ b }
{}

/// A commit says at most one list of refs. One that says refs is refused only where an object could
/// not be had or memory was refused.
pub fn one_saying()
    ensures one { OneSigned }
    ensures alone { SignedIsRefusedByFaultAlone }
{}

/// A commit is refused for at most one reason, an object that could not be had or memory that was
/// refused apart.
pub fn one_refusal()
    ensures { OneRefusal }
{}

/// What a commit says it goes on saying as objects are added and none is replaced, whoever signed
/// it and as a node's; so do its blobs.
pub fn signed_refs_stay()
    ensures blob { (old new : ObjectMap) (commit : Oid) (name bytes : List ℕ) → Grows old new
        → HasBlob old commit name bytes → HasBlob new commit name bytes }
    ensures said { (old new : ObjectMap) (commit : Oid) (refs : List Line) → Grows old new
        → Says old commit refs → Says new commit refs }
    ensures signed { SignedStays }
{}

/// A commit says at most one list of refs, whoever signed them, and those that it says as a node's
/// are these.
pub fn one_said()
    ensures one { (objects : ObjectMap) (commit : Oid) (a b : List Line)
        → Says objects commit a → Says objects commit b → a ≡ b }
    ensures signed { (objects : ObjectMap) (keyring : Contents) (rid : Rid) (node : Nid)
        (commit : Oid) (refs : List Line) → Signed objects keyring rid node commit refs
        → Says objects commit refs }
{}
