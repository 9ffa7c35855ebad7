// Writing a bundle.
ghost use Rattle.std.specs.Prelude.{◌≡◌, ◌≤◌, ◌++◌, ◌∷◌, [], IfOk, OnOk, length, map};
ghost use Rattle.std.specs.List.{flat_map};
ghost use Rattle.rad_base.specs.Order.{IsRising};
ghost use Rattle.fetch_wire.specs.Sections.{as_part, part_text};
ghost use Rattle.fetch_wire.specs.declared.part.Part.TheVariants as parts;
ghost use Rattle.rad_vectors.specs.Repositories.{IsBundleOf, remotes_of};
ghost use Rattle.rad_vectors.specs.Shown.{all_shown};
ghost use Rattle.rad_vectors.specs.Signers.{signer_of};

use crate::delegate::Delegate;
use crate::identity::identity_of;
use crate::object::NamedObject;
use crate::order::sort_by_name;
use crate::signing::signed_refs;
use fetch_wire::{Part, push_object, push_part};
use rad_base::{NoMemory, Offer};
use std::alloc::Global;

// Writes objects and the end word.
fn push_objects(bytes: &mut Vec<u8>, objects: &[NamedObject]) -> Result<(), NoMemory>
    ensures { OnOk result (bytes.new.items ≡ bytes.old.items
        ++ flat_map part_text (map as_part (all_shown objects.now) ++ parts.End ∷ [])) }
{
    'objects: for object in objects {
        push_object(bytes, object.kind, &object.content)?;
    }
    push_part(bytes, &Part::End)
}

/// The bundle of a repository: its document, its delegates, whose keys rise and of whom there are
/// at most 1,024, and what their refs reach.
pub(crate) fn write_bundle(
    alloc: Global,
    document: &[u8],
    delegates: &[Delegate],
    tips: Vec<NamedObject>,
) -> Result<Vec<u8>, NoMemory>
    requires document { length document.now ≤ 33554432 }
    requires rising { IsRising (remotes_of (map signer_of delegates.now)) }
    requires few { length delegates.now ≤ 1024 }
    ensures { IfOk result (λ bytes. IsBundleOf (record {
      document = document.now;
      names = [];
      signers = map signer_of delegates.now;
      tips = all_shown tips.items;
    }) bytes.items) }
{
    let mut identity = identity_of(alloc, document)?;
    let mut signed = signed_refs(alloc, delegates)?;
    let mut tips = tips;
    sort_by_name(&mut identity.objects)?;
    sort_by_name(&mut signed.objects)?;
    sort_by_name(&mut tips)?;
    let mut bytes = identity.document.0.to_vec(alloc)?;
    let offer = Offer {
        id: identity.commit,
        remotes: signed.remotes,
    };
    push_part(&mut bytes, &Part::Offer(offer))?;
    push_objects(&mut bytes, &identity.objects)?;
    push_part(&mut bytes, &Part::SigsHead)?;
    push_objects(&mut bytes, &signed.objects)?;
    push_part(&mut bytes, &Part::TipsHead)?;
    push_objects(&mut bytes, &tips)?;
    Ok(bytes)
}
