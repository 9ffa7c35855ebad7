// The answers of `closure` and `chain`.
ghost use Rattle.std.specs.Prelude.{◌≡◌};

use rad_base::Oid;
use std::marker::Model;

/// Whether all that is reached from some roots is there, of its expected kind and well formed.
#[derive(Clone, Copy, Debug, PartialEq, Eq)]
pub enum Closure {
    /// All of it is.
    Closed,
    /// The least reached name that has no object.
    Missing(Oid),
    /// No reached name lacks its object; the least whose object is of another kind or malformed.
    BadObject(Oid),
}

/// Commits, from the root to the tip. Contracts see it as their list.
#[derive(Debug, Drop)]
pub struct Chain {
    commits: Vec<Oid>,
}

impl Model for Chain {
    ghost use Rattle.std.specs.Prelude.{List};
    ghost use Rattle.rad_base.specs.declared.names.Oid.{Oid};

    ghost Value = { List Oid };

    ghost view = { λ chain. chain.commits.items };
}

impl Chain {
    /// These commits, in their vector.
    pub fn of(commits: Vec<Oid>) -> Self
        ensures { result ≡ commits.items }
    {
        Chain { commits }
    }

    /// The commits, from the root to the tip.
    pub fn as_slice(&self) -> &[Oid]
        ensures { result.now ≡ self.now }
    {
        &self.commits
    }

    /// Gives the vector back.
    pub fn into_vec(self) -> Vec<Oid>
        ensures { result.items ≡ self }
    {
        self.commits
    }
}
