// The document at the end of an identity chain.
ghost use Rattle.std.specs.Prelude.{◌∷◌, [], IfOk, IfErr};
ghost use Rattle.std.specs.Option.{ForSome};
ghost use Rattle.rad_base.specs.declared.names.Oid.{Oid};
ghost use Rattle.commit_graph.specs.Faults.{KeepsObjects};
ghost use Rattle.commit_graph.specs.Pairs.{as_commit};
ghost use Rattle.commit_graph.specs.Closures.{IsClosed};
ghost use Rattle.commit_graph.specs.Chains.{IsChain};
ghost use Rattle.identity_doc.specs.Documents.{CanDecide};
ghost use Rattle.identity_doc.specs.IdentityChains.{EndsLine, HasIdentity};
ghost use Rattle.identity_doc.specs.IdentityFaults.{FailsLine, IsIdFault, id_fault_in};
ghost use Rattle.identity_doc.specs.IdentityReaders.{RefusesTip};
ghost use Rattle.identity_doc.specs.Texts.{IsSomeText};

use crate::changes::{changed_document, first_document};
use crate::doc::Doc;
use crate::id_fault::IdFault;
use commit_graph::answer::{Chain, Closure};
use commit_graph::{Objects, Root, chain, closure};
use git_object::Kind;
use keyring::Keyring;
use rad_base::{Oid, Rid};
use std::alloc::Global;

// The commits from the root to the tip.
fn commits_to<O: Objects>(alloc: Global, objects: &mut O, tip: &Oid) -> Result<Chain, IdFault>
    ensures told { ForSome (O.content objects.old) (λ m. IfOk result (λ commits.
        IsClosed m (as_commit tip.now ∷ []) × IsChain m commits tip.now)) }
    ensures refused { ForSome (O.content objects.old) (λ m. IfErr result (RefusesTip m tip.now)) }
    ensures keeps { KeepsObjects O.content O.beside O.places O.faults id_fault_in
        objects.old objects.new result }
{
    let roots = [Root {
        oid: *tip,
        kind: Some(Kind::Commit),
    }];
    match closure(alloc, objects, &roots)? {
        Closure::Missing(oid) => Err(IdFault::Missing(oid)),
        Closure::BadObject(oid) => Err(IdFault::BadObject(oid)),
        Closure::Closed => {
            let commits = chain(alloc, objects, tip)?;
            Ok(commits)
        }
    }
}

// The document of the last of some commits, of which the root is the first.
fn last_document<O: Objects>(
    alloc: Global,
    objects: &mut O,
    keyring: &Keyring,
    rid: &Rid,
    root: Oid,
    later: &[Oid],
) -> Result<Doc, IdFault>
    ensures told { ForSome (O.content objects.old) (λ m. (tip : Oid)
        → IsChain m (root ∷ later.now) tip
        → IfOk result (EndsLine m keyring.now rid.now (root ∷ later.now) tip)) }
    ensures text { IfOk result (IsSomeText keyring.now) }
    ensures refused { ForSome (O.content objects.old) (λ m. (tip : Oid)
        → IsChain m (root ∷ later.now) tip → IfErr result (FailsLine m keyring.now rid.now tip)) }
    ensures keeps { KeepsObjects O.content O.beside O.places O.faults id_fault_in
        objects.old objects.new result }
{
    let mut doc = first_document(alloc, objects, keyring, rid, root)?;
    let mut parent = root;
    for commit in later {
        let changed = changed_document(alloc, objects, keyring, parent, &doc, *commit)?;
        doc = changed;
        parent = *commit;
    }
    Ok(doc)
}

/// The document of a tip: that of the last commit of its identity chain. Identity commits are after
/// the Radicle Heartwood protocol, in this project's own form. The tree of each commit has a
/// directory `embeds`, in which `radicle.json` is the document, as JSON. The first commit has no
/// parent, and its document blob has the repository's name. Each later one has the one before as
/// its only parent, and a blob `signatures` in `embeds`, in which more than half of the delegates
/// before it signed the change: lines `<key> <signature>`, each with a line feed, in lower case
/// hexadecimal digits, the keys strictly rising. Each signature is over
/// `rad-id 1 <parent> <document blob>` and a line feed, the names in such digits.
///
/// The refusal is the first that fails: `Missing` or `BadObject`, where the tip is not closed as a
/// commit; `TwoParents` or `NoRoot`, where no line of commits leads to it; and then, at the first
/// commit from the root that breaks a rule, `NoDocument`, `WrongRoot`, `NotJson`, `BadDocument`,
/// `BadSignatures` or `TooFew`. `Get` comes where an object could not be had, or memory was
/// refused.
pub fn id_chain<O: Objects>(
    alloc: Global,
    objects: &mut O,
    keyring: &Keyring,
    rid: &Rid,
    tip: &Oid,
) -> Result<Doc, IdFault>
    ensures told { ForSome (O.content objects.old)
        (λ m. IfOk result (HasIdentity m keyring.now rid.now tip.now)) }
    ensures text { IfOk result (IsSomeText keyring.now) }
    ensures decides { IfOk result CanDecide }
    ensures refused { ForSome (O.content objects.old)
        (λ m. IfErr result (IsIdFault m keyring.now rid.now tip.now)) }
    ensures keeps { KeepsObjects O.content O.beside O.places O.faults id_fault_in
        objects.old objects.new result }
{
    let commits = commits_to(alloc, objects, tip)?;
    let Some((root, later)) = commits.as_slice().split_first() else {
        return Err(IdFault::NoRoot(*tip));
    };
    let doc = last_document(alloc, objects, keyring, rid, *root, later)?;
    Ok(doc)
}
