// What holds of slices and verdicts by the definitions alone.
ghost use Rattle.std.specs.Prelude.{◌≡◌, ℕ, List};
ghost use Rattle.rad_base.specs.declared.names.Nid.{Nid};
ghost use Rattle.rad_base.specs.declared.names.Oid.{Oid};
ghost use Rattle.keyring.specs.Contents.{Contents};
ghost use Rattle.repo_slice.specs.Good.{IsGood};
ghost use Rattle.repo_slice.specs.Laws.{JudgedIsAllowed, JudgedIsNotRefused, NextIsGood, OneJudging};
ghost use Rattle.repo_slice.specs.Laws.{OneVerdict};
ghost use Rattle.repo_slice.specs.Laws.{ReplacedAdvance};
ghost use Rattle.commit_graph.specs.Objects.{Grows, ObjectMap};
ghost use Rattle.repo_slice.specs.Outcomes.{AreOutcomes, Case};
ghost use Rattle.rad_base.specs.Order.{IsRising};
ghost use Rattle.repo_slice.specs.Standing.{Replaces, replaced};
ghost use Rattle.repo_slice.specs.declared.outcomes.Outcome.{Outcome};
ghost use Rattle.repo_slice.specs.declared.state.State.{State};

/// Objects that are added and never replaced keep a good slice good.
pub fn put_keeps_good()
    ensures { (old new : ObjectMap) (keyring : Contents) (state : State) → Grows old new
        → IsGood old keyring state → IsGood new keyring state }
{}

/// From a good slice the next one is good, and each remote that is replaced advances.
pub fn next_is_good()
    ensures good { NextIsGood }
    ensures advances { ReplacedAdvance }
{}

/// Offered remotes have one list of outcomes.
pub fn one_list_of_outcomes()
    ensures { (objects : ObjectMap) (c : Case) (count : ℕ) (pairs : List (Nid × Oid))
        (a b : List (Nid × Outcome)) → AreOutcomes objects c count pairs a
        → AreOutcomes objects c count pairs b → a ≡ b }
{}

/// An offer is judged in one way, and is then not refused whole. It has one verdict.
pub fn one_verdict()
    ensures one { OneJudging }
    ensures never_both { JudgedIsNotRefused }
    ensures same { OneVerdict }
{}

/// What was judged under some scope and not refused whole is allowed again with every scope, as the
/// next identity and the remotes that advanced: it is refused nothing, does not leave another
/// identity, and advances the same remotes.
pub fn judged_is_allowed()
    ensures { JudgedIsAllowed }
{}

/// Of rising remotes the one list with exactly some rising ones replaced or added is `replaced`.
pub fn one_list_of_remotes()
    ensures is { (old advanced : List (Nid × Oid)) → IsRising old → IsRising advanced
        → Replaces old advanced (replaced old advanced) }
    ensures one { (old advanced new : List (Nid × Oid)) → IsRising old → IsRising advanced
        → Replaces old advanced new → new ≡ replaced old advanced }
{}
