// The canonical head of a repository.
ghost use Rattle.std.specs.Prelude.{◌≡◌, ◌++◌, IfOk, Some, codes};
ghost use Rattle.std.specs.Option.{ForSome};
ghost use Rattle.commit_graph.specs.Faults.{KeepsObjects};
ghost use Rattle.repo_slice.specs.Good.{IsGood};
ghost use Rattle.repo_slice.specs.Heads.{IsHeadOf};

use crate::State;
use crate::identity::document;
use crate::stop::Stop;
use crate::tips::tips_of;
use canonical_head::answer::Head;
use canonical_head::head;
use commit_graph::{GetFault, Objects};
use keyring::Keyring;
use rad_base::{NoMemory, Text};
use std::alloc::Global;

// The name of the ref of a branch.
fn ref_of(alloc: Global, branch: &Text) -> Result<Vec<u8>, NoMemory>
    ensures { IfOk result (λ name. name.items ≡ codes "refs/heads/" ++ branch.now) }
{
    let mut name = Vec::from_slice(alloc, b"refs/heads/")?;
    name.extend_from_slice(branch.as_str().as_bytes())?;
    Ok(name)
}

/// The canonical head of a state over any objects. None without an identity.
pub(crate) fn head_over<O: Objects>(
    alloc: Global,
    objects: &mut O,
    state: &State,
    keyring: &Keyring,
) -> Result<Option<Head>, GetFault>
    ensures told { ForSome (O.content objects.old) (λ m. IsGood m keyring.now state.now
        → IfOk result (IsHeadOf m keyring.now state.now)) }
    ensures keeps { KeepsObjects O.content O.beside O.places O.faults Some objects.old objects.new
        result }
{
    let Some(id) = state.id else {
        return Ok(None);
    };
    let doc = match document(alloc, objects, keyring, &state.rid, &id) {
        Ok(doc) => doc,
        Err(Stop::Get(why)) => return Err(why),
        // The identity of a good state has a document.
        Err(Stop::Whole(_)) => return Ok(Some(Head::NoQuorum)),
    };
    let Some(branch) = &doc.default_branch else {
        return Ok(Some(Head::NoBranch));
    };
    let name = ref_of(alloc, branch)?;
    let delegates = doc.delegates.as_slice();
    let tips = tips_of(alloc, objects, &state.remotes, &name, delegates)?;
    let found = head(alloc, objects, &tips, doc.threshold)?;
    Ok(Some(found))
}
