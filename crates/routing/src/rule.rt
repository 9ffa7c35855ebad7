// What holds of a repository.

/// Whether a repository is taken.
#[derive(Clone, Copy, Debug, PartialEq, Eq)]
pub enum Policy {
    /// It is.
    Allow,
    /// It is not.
    Block,
}

/// Whose remotes of a repository are wanted.
#[derive(Clone, Copy, Debug, PartialEq, Eq)]
pub enum Reach {
    /// Everybody's.
    All,
    /// Those of the delegates and of the nodes that are followed.
    Followed,
}

/// What holds of a repository.
#[derive(Clone, Copy, Debug, PartialEq, Eq)]
pub struct Rule {
    /// Whether it is taken.
    pub policy: Policy,
    /// Whose remotes are wanted.
    pub reach: Reach,
}
