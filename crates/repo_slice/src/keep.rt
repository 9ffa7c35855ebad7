// What keeps the entries of a job.
ghost use Rattle.std.specs.Prelude.{◌≡◌, ◌↔◌, ◌<◌, ◌≤◌, ◌^◌, ℕ, List, [], ◌∷◌, Contains, length};
ghost use Rattle.std.specs.Prelude.{IfErr, IfOk, IsSome, IsTrue, OnErr, OnOk, Some};
ghost use Rattle.std.specs.Option.{ForSome};
ghost use Rattle.rad_base.specs.declared.names.Oid.{Oid};
ghost use Rattle.rad_base.specs.declared.names.Rid.{Rid};
ghost use Rattle.repo_entries.specs.Batches.{IsBatch};
ghost use Rattle.repo_entries.specs.Items.{Item, put};
ghost use Rattle.repo_slice.specs.Heads.{IsHeadOf};
ghost use Rattle.repo_slice.specs.Keeps.{AreRisingNames, Constants, HadRoom, HasSlice, Held, HeldBehind};
ghost use Rattle.repo_slice.specs.Keeps.{IsKeepCause, IsNamedIn, IsNoChange, IsVerdictOn, IsWantedOn};
ghost use Rattle.repo_slice.specs.Keeps.{LeavesOthers, Makes, StopsAtVerdict, StopsIn, item_of};
ghost use Rattle.repo_slice.specs.Keeps.{put_told};
ghost use Rattle.repo_slice.specs.Wanted.{AreAmong};

use crate::{Batch, Judged, KeepFault, Scope, Stage, Whole};
use canonical_head::answer::Head;
use rad_base::{Nids, NoMemory, Offer, Oids, Rid};

/// What a fetch keeps its entries in.
///
/// A `DiskFault` adds one missed entry of the repository; nothing else that is refused adds an
/// entry. Claims are not counted among the entries.
pub trait Keep {
    /// From where on its entries are told.
    ghost Origin: { Type 0 };

    /// From there on its entries, and those that its calls made, missed ones among them, may be
    /// these.
    ghost made: { Self → Origin → List Item → Type 0 };

    /// What it has of a repository.
    ghost held: { Self → Rid → Held };

    /// What no call changes.
    ghost constants: { Self → Constants };

    /// The journal's end, as the last call left it.
    ghost end: { Self → ℕ };

    /// How often what lies below was at fault.
    ghost faults: { Self → ℕ };

    /// Which loan it is, where it holds a borrow. No call changes it.
    ghost loan: { Self → ℕ };

    /// The names of the identity and of the remotes' commits, rising, each once.
    fn have(&mut self, rid: &Rid) -> Result<Oids, NoMemory>
        requires { IsTrue ((constants self.old).stands rid.now) }
        ensures leaves { LeavesOthers constants loan faults held rid.now self.old self.new }
        ensures nothing { Makes made self.old self.new [] }
        ensures slice { held self.new rid.now ≡ held self.old rid.now }
        ensures rising { IfOk result AreRisingNames }
        ensures names { IfOk result (λ oids. (oid : Oid)
            → Contains oids oid ↔ IsNamedIn (held self.old rid.now) oid) };

    /// The offered remotes that are wanted before a section.
    fn wants(
        &mut self,
        rid: &Rid,
        offer: &Offer,
        scope: &Scope,
        stage: Stage,
    ) -> Result<Nids, KeepFault>
        requires { IsTrue ((constants self.old).stands rid.now) }
        ensures leaves { LeavesOthers constants loan faults held rid.now self.old self.new }
        ensures nothing { OnOk result (Makes made self.old self.new []) }
        ensures stops { IfErr result (StopsIn made rid.now (constants self.old).caller
            (end self.new) self.old self.new []) }
        ensures slice { held self.new rid.now ≡ held self.old rid.now }
        ensures cause { IfErr result (IsKeepCause (held self.old rid.now).objects
            (faults self.old) (faults self.new)) }
        ensures wanted { IfOk result (IsWantedOn (constants self.old) (held self.old rid.now)
            offer.now scope.now stage) }
        ensures among { IfOk result (AreAmong offer.now.remotes) };

    /// Puts objects into the slice of a repository.
    fn put(&mut self, rid: &Rid, batch: &Batch) -> Result<(), KeepFault>
        requires stands { IsTrue ((constants self.old).stands rid.now) }
        requires limits { IsBatch batch.now }
        ensures leaves { LeavesOthers constants loan faults held rid.now self.old self.new }
        ensures entered { OnOk result (Makes made self.old self.new
            (put rid.now batch.now (constants self.old).caller ∷ [])) }
        ensures stops { IfErr result (StopsIn made rid.now (constants self.old).caller
            (end self.new) self.old self.new (put rid.now batch.now (constants self.old).caller ∷ [])) }
        ensures slice { OnOk result (HasSlice (held self.old rid.now).state
            (put_told (held self.old rid.now).objects batch.now) (held self.new rid.now)) }
        ensures same { OnErr result (held self.new rid.now ≡ held self.old rid.now) }
        ensures cause { IfErr result (IsKeepCause (held self.old rid.now).objects
            (faults self.old) (faults self.new)) }
        ensures unchanged { IfErr result IsNoChange }
        ensures room { OnOk result (end self.new < 2 ^ 40) };

    /// Judges an offer on the slice of a repository, and installs what advances.
    fn install(
        &mut self,
        rid: &Rid,
        offer: &Offer,
        scope: &Scope,
    ) -> Result<Result<Judged, Whole>, KeepFault>
        requires { IsTrue ((constants self.old).stands rid.now) }
        ensures leaves { LeavesOthers constants loan faults held rid.now self.old self.new }
        ensures verdict { IfOk result (IsVerdictOn (constants self.old) (held self.old rid.now)
            offer.now scope.now) }
        ensures entered { IfOk result (λ verdict. Makes made self.old self.new
            (item_of rid.now (constants self.old).caller verdict ∷ [])) }
        ensures stops { IfErr result (StopsAtVerdict made rid.now (constants self.old).caller
            (end self.new) self.old self.new (IsVerdictOn (constants self.old)
            (held self.old rid.now) offer.now scope.now)) }
        ensures slice { IfOk result (λ verdict. HeldBehind (held self.old rid.now) verdict
            (held self.new rid.now)) }
        ensures same { OnErr result (held self.new rid.now ≡ held self.old rid.now) }
        ensures cause { IfErr result (IsKeepCause (held self.old rid.now).objects
            (faults self.old) (faults self.new)) }
        ensures room { IfOk result (HadRoom (end self.new)) };

    /// The canonical head of a repository that has an identity.
    fn head(&mut self, rid: &Rid) -> Result<Head, KeepFault>
        requires stands { IsTrue ((constants self.old).stands rid.now) }
        requires identity { IsSome (held self.old rid.now).state.id }
        ensures leaves { LeavesOthers constants loan faults held rid.now self.old self.new }
        ensures nothing { OnOk result (Makes made self.old self.new []) }
        ensures stops { IfErr result (StopsIn made rid.now (constants self.old).caller
            (end self.new) self.old self.new []) }
        ensures slice { held self.new rid.now ≡ held self.old rid.now }
        ensures cause { IfErr result (IsKeepCause (held self.old rid.now).objects
            (faults self.old) (faults self.new)) }
        ensures head { IfOk result (λ head. ForSome (held self.old rid.now).objects (λ objects.
            IsHeadOf objects (constants self.old).keyring (held self.old rid.now).state
            (Some head))) };
}
