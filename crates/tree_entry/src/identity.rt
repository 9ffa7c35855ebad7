// What identity commits embed.
ghost use Rattle.std.specs.Prelude.{◌≡◌, ◌↔◌, IfOk, IsTrue, Some};
ghost use Rattle.std.specs.Option.{ForSome};
ghost use Rattle.commit_graph.specs.Faults.{KeepsObjects};
ghost use Rattle.tree_entry.specs.Entries.{Finds};
ghost use Rattle.tree_entry.specs.Embedded.{HasEmbedded, IsIdentityRoot};

use crate::{commit_entry, commit_tree, find_entry};
use commit_graph::{GetFault, Objects};
use git_object::Kind;
use rad_base::{Oid, Rid};

/// The blob of this name in the directory `embeds` of a commit's tree: `radicle.json` is the
/// identity document, `signatures` those of the delegates. This is after the Radicle Heartwood
/// protocol, in this project's own form.
///
/// None where one on the way is not there, of another kind or not in its grammar, or the entry
/// itself is lacking. `GetFault` as `Objects::get` answers it.
pub fn embedded<O: Objects>(
    objects: &mut O,
    oid: &Oid,
    name: &[u8],
) -> Result<Option<Oid>, GetFault>
    ensures told { ForSome (O.content objects.old)
        (λ m. IfOk result (Finds (HasEmbedded m oid.now name.now))) }
    ensures keeps { KeepsObjects O.content O.beside O.places O.faults Some objects.old objects.new
        result }
{
    let Some(embeds) = commit_entry(objects, oid, Kind::Tree, b"embeds")? else {
        return Ok(None);
    };
    let blob = find_entry(objects, &embeds, Kind::Blob, name)?;
    Ok(blob)
}

// Whether the document has the repository's name.
fn is_named_after(document: Option<Oid>, rid: &Rid) -> bool
    ensures { IsTrue result ↔ document ≡ Some rid.now.0 }
{
    document == Some(rid.0)
}

/// Whether a commit is an identity root of the repository: it has no parent, and its identity
/// document is the blob that the repository is named after. The blob itself need not be there. This
/// is after the Radicle Heartwood protocol, in this project's own form. `GetFault` as
/// `Objects::get` answers it.
pub fn is_identity_root<O: Objects>(objects: &mut O, rid: &Rid, oid: &Oid) -> Result<bool, GetFault>
    ensures told { ForSome (O.content objects.old)
        (λ m. IfOk result (λ is. IsTrue is ↔ IsIdentityRoot m rid.now oid.now)) }
    ensures keeps { KeepsObjects O.content O.beside O.places O.faults Some objects.old objects.new
        result }
{
    let Some(found) = commit_tree(objects, oid)? else {
        return Ok(false);
    };
    if found.has_parent {
        return Ok(false);
    }
    let document = embedded(objects, oid, b"radicle.json")?;
    Ok(is_named_after(document, rid))
}
