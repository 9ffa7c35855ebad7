// What holds of heads by the definitions alone.
ghost use Rattle.std.specs.Prelude.{◌≡◌, ℕ, List};
ghost use Rattle.rad_base.specs.declared.names.Oid.{Oid};
ghost use Rattle.commit_graph.specs.Objects.{ObjectMap};
ghost use Rattle.canonical_head.specs.Heads.{IsHead};
ghost use Rattle.canonical_head.specs.Laws.{DecidedTipsHaveHead};
ghost use Rattle.canonical_head.specs.declared.answer.Head.{Head};

/// Tips have at most one head, and where it is decided of each two of them whether one lies in the
/// history of the other, as it is of objects that can all be looked up, there is one.
pub fn one_head()
    ensures one { (objects : ObjectMap) (tips : List Oid) (threshold : ℕ) (a b : Head)
        → IsHead objects tips threshold a → IsHead objects tips threshold b → a ≡ b }
    ensures some { DecidedTipsHaveHead }
{}
