// What holds of closures, histories and chains by the definitions alone.
ghost use Rattle.std.specs.Prelude.{◌≡◌, ◌↔◌, ◌∷◌, ◌++◌, [], List, Contains};
ghost use Rattle.rad_base.specs.declared.names.Oid.{Oid};
ghost use Rattle.commit_graph.specs.Objects.{Object, ObjectMap, Grows};
ghost use Rattle.commit_graph.specs.InMemory.{objects_in};
ghost use Rattle.commit_graph.specs.Closures.{IsClosed, IsClosedCommit, IsClosure, IsReached};
ghost use Rattle.commit_graph.specs.Histories.{InHistory};
ghost use Rattle.commit_graph.specs.Chains.{HasParents, IsChain};
ghost use Rattle.commit_graph.specs.declared.answer.Closure.{Closure};
ghost use Rattle.commit_graph.specs.declared.root.Root.{Root};

/// What was reached, closed, in a history or a chain stays so as objects are added.
pub fn added_objects_change_no_answer()
    ensures reached { (old new : ObjectMap) (roots : List Root) (pair : Root) → Grows old new
        → IsReached old roots pair → IsReached new roots pair }
    ensures closed { (old new : ObjectMap) (roots : List Root) → Grows old new
        → IsClosed old roots → IsClosed new roots }
    ensures history { (old new : ObjectMap) (a b : Oid) → Grows old new → InHistory old a b
        → InHistory new a b }
    ensures parents { (old new : ObjectMap) (oid : Oid) (parents : List Oid) → Grows old new
        → HasParents old oid parents → HasParents new oid parents }
    ensures chain { (old new : ObjectMap) (commits : List Oid) (tip : Oid) → Grows old new
        → IsChain old commits tip → IsChain new commits tip }
{}

/// What was closed reaches nothing new as objects are added, and its history has no other commit.
pub fn added_objects_are_not_reached()
    ensures reached { (old new : ObjectMap) (roots : List Root) (pair : Root) → Grows old new
        → IsClosed old roots → IsReached new roots pair → IsReached old roots pair }
    ensures history { (old new : ObjectMap) (a b : Oid) → Grows old new → IsClosedCommit old b
        → InHistory new a b → InHistory old a b }
{}

/// Roots are closed exactly where each of them is.
pub fn closed_where_each_is()
    ensures { (objects : ObjectMap) (roots : List Root) → IsClosed objects roots
        ↔ ((root : Root) → Contains roots root → IsClosed objects (root ∷ [])) }
{}

/// Roots have at most one closure, and a tip has at most one chain.
pub fn one_answer()
    ensures closure { (objects : ObjectMap) (roots : List Root) (a b : Closure)
        → IsClosure objects roots a → IsClosure objects roots b → a ≡ b }
    ensures chain { (objects : ObjectMap) (tip : Oid) (a b : List Oid) → IsChain objects a tip
        → IsChain objects b tip → a ≡ b }
{}

/// Objects behind others are added to those, and behind others that are found alike all are found
/// alike.
pub fn objects_behind_are_added()
    ensures grows { (old batch : List Object) → Grows (objects_in old) (objects_in (old ++ batch)) }
    ensures alike { (a b batch : List Object) → objects_in a ≡ objects_in b
        → objects_in (a ++ batch) ≡ objects_in (b ++ batch) }
{}
