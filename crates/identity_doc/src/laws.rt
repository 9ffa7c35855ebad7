// What holds of identity documents and of their chains by the definitions alone.
ghost use Rattle.std.specs.Prelude.{◌≡◌, ◌≤◌, ◌↔◌, ℕ, List, [], length, map, Option, Ok, Err, Some};
ghost use Rattle.serde_json.specs.Data.{Data};
ghost use Rattle.keyring.specs.Contents.{Contents};
ghost use Rattle.identity_doc.specs.DelegateKeys.{LacksKeyAt, RepeatsAt};
ghost use Rattle.rad_base.specs.Lists.{AllDiffer};
ghost use Rattle.identity_doc.specs.Documents.{IsDocument, IsRefused, keys_behind};
ghost use Rattle.identity_doc.specs.declared.fault.DocFault.TheVariants.{BadDelegate, Twice};
ghost use Rattle.rad_base.specs.declared.names.Nid.{Nid};
ghost use Rattle.identity_doc.specs.declared.doc.Doc.{Doc};
ghost use Rattle.identity_doc.specs.declared.fault.DocFault.{DocFault};
ghost use Rattle.rad_base.specs.declared.names.Oid.{Oid};
ghost use Rattle.rad_base.specs.declared.names.Rid.{Rid};
ghost use Rattle.commit_graph.specs.Objects.{ObjectMap};
ghost use Rattle.identity_doc.specs.IdentityChains.{HasDocument, HasIdentity, IsIdentityChain};
ghost use Rattle.commit_graph.specs.Objects.{Grows};
ghost use Rattle.identity_doc.specs.Laws.{IdentityChainStays, IdentityIsRefusedByFaultAlone};
ghost use Rattle.identity_doc.specs.Laws.{OneIdFault};

/// A value is at most one document, or is refused for at most one reason.
pub fn one_document()
    ensures document { (value : Data) (keyring : Contents) (a b : Doc)
        → IsDocument value keyring a → IsDocument value keyring b → a ≡ b }
    ensures refusal { (value : Data) (keyring : Contents) (a b : DocFault)
        → IsRefused value keyring a → IsRefused value keyring b → a ≡ b }
    ensures never_both { (value : Data) (keyring : Contents) (doc : Doc) (fault : DocFault)
        → IsDocument value keyring doc → IsRefused value keyring fault → ⊥ }
{}

/// A document has 1 to 255 delegates, all different, and its threshold is 1 to their number.
pub fn reachable_threshold()
    ensures delegates { (value : Data) (keyring : Contents) (doc : Doc)
        → IsDocument value keyring doc → AllDiffer doc.delegates × (length doc.delegates ≤ 255) }
    ensures threshold { (value : Data) (keyring : Contents) (doc : Doc)
        → IsDocument value keyring doc
        → (1 ≤ doc.threshold) × (doc.threshold ≤ length doc.delegates) }
{}

/// The keys are read exactly where each element has one and all differ. Else element i is refused
/// exactly where those before it have keys that all differ and it has none (`BadDelegate`), or has
/// one of theirs (`Twice`).
pub fn delegate_keys()
    ensures read { (found : List (Option Nid)) (keys : List Nid)
        → (keys_behind [] found ≡ Ok keys) ↔ (found ≡ map Some keys) × AllDiffer keys }
    ensures lacking { (found : List (Option Nid)) (i : ℕ)
        → (keys_behind [] found ≡ Err (BadDelegate i)) ↔ LacksKeyAt i found }
    ensures repeated { (found : List (Option Nid)) (i : ℕ)
        → (keys_behind [] found ≡ Err (Twice i)) ↔ RepeatsAt i found }
{}

/// A tip has at most one identity chain, and at most one document.
pub fn one_identity()
    ensures chain { (objects : ObjectMap) (keyring : Contents) (rid : Rid) (tip : Oid)
        (a b : List Oid) → IsIdentityChain objects keyring rid tip a
        → IsIdentityChain objects keyring rid tip b → a ≡ b }
    ensures document { (objects : ObjectMap) (keyring : Contents) (rid : Rid) (tip : Oid)
        (a b : Doc) → HasIdentity objects keyring rid tip a
        → HasIdentity objects keyring rid tip b → a ≡ b }
{}

/// A tip that has an identity is refused only where an object could not be had, or memory was
/// refused.
pub fn an_identity_is_not_refused()
    ensures { IdentityIsRefusedByFaultAlone }
{}

/// A tip is refused for at most one reason, an object that could not be had or memory that was
/// refused apart.
pub fn one_id_fault()
    ensures { OneIdFault }
{}

/// Documents of commits, identity chains and identities stay what they are as objects are added and
/// none is replaced.
pub fn identities_stay()
    ensures document { (old new : ObjectMap) (keyring : Contents) (commit : Oid) (doc : Doc)
        → Grows old new → HasDocument old keyring commit doc → HasDocument new keyring commit doc }
    ensures chain { IdentityChainStays }
    ensures identity { (old new : ObjectMap) (keyring : Contents) (rid : Rid) (tip : Oid)
        (doc : Doc) → Grows old new → HasIdentity old keyring rid tip doc
        → HasIdentity new keyring rid tip doc }
{}
