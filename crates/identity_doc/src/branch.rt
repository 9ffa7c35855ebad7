// The default branch.
ghost use Rattle.std.specs.Prelude.{◌≡◌, ◌↔◌, ◌++◌, codes, IfOk, IsTrue, option_map};
ghost use Rattle.serde_json.specs.View.{view};
ghost use Rattle.ref_name.specs.Rules.{KeepsRules};
ghost use Rattle.identity_doc.specs.Documents.{branch_text, IsBranch};

use rad_base::{NoMemory, Text};
use ref_name::check_ref_name;
use serde_json::Value;
use std::alloc::{AllocError, Global};

// The text that a payload has for the default branch.
fn branch_text(payload: &Value) -> Option<&str>
    ensures { option_map (λ text. text.now) result ≡ branch_text (view payload.now) }
{
    let project = payload.get("xyz.radicle.project")?;
    project.get("defaultBranch").and_then(Value::as_str)
}

// Whether Git allows a branch of this name.
#[tactic(auto, using(crate::proofs::Branches::none_broken))]
fn is_allowed(alloc: Global, branch: &str) -> Result<bool, AllocError>
    ensures { IfOk result (λ allowed.
        IsTrue allowed ↔ KeepsRules (codes "refs/heads/" ++ branch.now)) }
{
    let mut name = String::from_str(alloc, "refs/heads/")?;
    name.push_str(branch)?;
    Ok(check_ref_name(name.as_bytes()).is_none())
}

/// The default branch of a payload.
#[tactic(auto, using(crate::proofs::Branches::unnamed))]
pub(crate) fn branch_in(alloc: Global, payload: &Value) -> Result<Option<Text>, NoMemory>
    ensures { IfOk result (IsBranch (view payload.now)) }
{
    let Some(branch) = branch_text(payload) else {
        return Ok(None);
    };
    if !is_allowed(alloc, branch)? {
        return Ok(None);
    }
    let branch = String::from_str(alloc, branch)?;
    Ok(Some(Text::of(branch)))
}
