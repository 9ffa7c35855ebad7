// Why there is no identity chain.
use crate::fault::DocFault;
use commit_graph::{ChainFault, GetFault};
use rad_base::{NoMemory, Oid};

/// Why a commit has no identity chain: the first that fails.
#[derive(Clone, Copy, Debug, PartialEq, Eq)]
pub enum IdFault {
    /// The least name reached from the tip that has no object.
    Missing(Oid),
    /// The least name reached from the tip whose object is of another kind or malformed, where
    /// none is missing.
    BadObject(Oid),
    /// The first commit, from the tip, that has two parents or more.
    TwoParents(Oid),
    /// The walk from the tip comes back to this commit.
    NoRoot(Oid),
    /// The commit has no document blob.
    NoDocument(Oid),
    /// The commit without parents has a document blob that is not named as the repository.
    WrongRoot(Oid),
    /// The commit's document blob is no JSON.
    NotJson(Oid),
    /// The commit's document blob is the JSON of no document: the first check that fails, which is
    /// never `NoMemory`.
    BadDocument(Oid, DocFault),
    /// The first broken line of the commit's signatures, counted from 1; 0 where it has no blob of
    /// them.
    BadSignatures(Oid, usize),
    /// Too few of the parent's delegates signed the change.
    TooFew {
        /// The commit that changes the document.
        commit: Oid,
        /// How many did.
        have: usize,
        /// How many are more than half of them.
        need: usize,
    },
    /// An object could not be had, or memory was refused.
    Get(GetFault),
}

impl From<GetFault> for IdFault {
    ghost use Rattle.std.specs.Prelude.{◌≡◌};
    ghost use Rattle.identity_doc.specs.declared.id_fault.IdFault.{IdFault};
    ghost use Rattle.identity_doc.specs.declared.id_fault.IdFault.TheVariants.{Get};

    ghost from_gives = { λ fault why. why ≡ Get fault };

    fn from(fault: GetFault) -> Self {
        IdFault::Get(fault)
    }
}

impl From<NoMemory> for IdFault {
    ghost use Rattle.std.specs.Prelude.{◌≡◌};
    ghost use Rattle.commit_graph.specs.declared.fault.GetFault.TheVariants.{NoMemory as no_memory};
    ghost use Rattle.identity_doc.specs.declared.id_fault.IdFault.{IdFault};
    ghost use Rattle.identity_doc.specs.declared.id_fault.IdFault.TheVariants.{Get};

    ghost from_gives = { λ _ why. why ≡ Get no_memory };

    fn from(_: NoMemory) -> Self {
        IdFault::Get(GetFault::NoMemory)
    }
}

impl From<ChainFault> for IdFault {
    ghost use Rattle.std.specs.Prelude.{◌≡◌};
    ghost use Rattle.identity_doc.specs.IdentityReaders.{of_chain};
    ghost use Rattle.identity_doc.specs.declared.id_fault.IdFault.{IdFault};

    ghost from_gives = { λ fault why. why ≡ of_chain fault };

    fn from(fault: ChainFault) -> Self {
        match fault {
            ChainFault::TwoParents(oid) => IdFault::TwoParents(oid),
            ChainFault::NoRoot(oid) => IdFault::NoRoot(oid),
            ChainFault::Get(why) => IdFault::Get(why),
        }
    }
}
