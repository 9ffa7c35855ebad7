// The order of objects in a section.
ghost use Rattle.std.specs.Prelude.{◌≡◌, OnOk};
ghost use Rattle.std.specs.List.Sorted.{IsPermutation, IsSortedByKey};
ghost use Rattle.rad_base.specs.Order.{oid_cmp};
ghost use Rattle.rad_vectors.specs.Repositories.{IsInOrder};
ghost use Rattle.rad_vectors.specs.Shown.{all_shown};

use crate::object::NamedObject;
use rad_base::{NoMemory, Oid};

/// Puts objects in the order of their names.
pub(crate) fn sort_by_name(objects: &mut Vec<NamedObject>) -> Result<(), NoMemory>
    ensures { OnOk result (IsInOrder (all_shown objects.old.items)
        (all_shown objects.new.items)) }
{
    objects.sort_by_key(
        |object: &NamedObject| -> Oid
            ensures { result ≡ object.now.oid }
        { object.oid },
    )?;
    Ok(())
}
