// What holds of the entries of trees by their definitions alone.
ghost use Rattle.std.specs.Prelude.{ℕ, List};
ghost use Rattle.rad_base.specs.declared.names.Oid.{Oid};
ghost use Rattle.rad_base.specs.declared.names.Rid.{Rid};
ghost use Rattle.git_object.specs.Grammar.{Commit};
ghost use Rattle.git_object.specs.declared.kind.Kind.{Kind};
ghost use Rattle.commit_graph.specs.Objects.{ObjectMap};
ghost use Rattle.commit_graph.specs.Objects.{Grows};
ghost use Rattle.tree_entry.specs.Embedded.{HasEmbedded, IsIdentityRoot};
ghost use Rattle.tree_entry.specs.Entries.{HasCommit, HasCommitEntry, HasEntry};

/// Commits, the entries of trees and of the trees of commits, what commits embed and identity roots
/// stay what they are as objects are added and none is replaced.
pub fn entries_stay()
    ensures commit { (old new : ObjectMap) (oid : Oid) (commit : Commit) → Grows old new
        → HasCommit old oid commit → HasCommit new oid commit }
    ensures entry { (old new : ObjectMap) (tree : Oid) (kind : Kind) (name : List ℕ) (oid : Oid)
        → Grows old new → HasEntry old tree kind name oid → HasEntry new tree kind name oid }
    ensures of_commit { (old new : ObjectMap) (oid : Oid) (kind : Kind) (name : List ℕ)
        (found : Oid) → Grows old new → HasCommitEntry old oid kind name found
        → HasCommitEntry new oid kind name found }
    ensures embedded { (old new : ObjectMap) (oid : Oid) (name : List ℕ) (blob : Oid)
        → Grows old new → HasEmbedded old oid name blob → HasEmbedded new oid name blob }
    ensures root { (old new : ObjectMap) (rid : Rid) (oid : Oid) → Grows old new
        → IsIdentityRoot old rid oid → IsIdentityRoot new rid oid }
{}
