// The words of a rules file, and the members that have them.
ghost use Rattle.std.specs.Prelude.{◌≡◌, Some, IfSome, IfNone};
ghost use Rattle.hex.specs.Hex.{encode_lower};
ghost use Rattle.serde_json.specs.Find.{as_str};
ghost use Rattle.serde_json.specs.View.{view};
ghost use Rattle.rad_base.specs.Sizes.{IsNid};
ghost use Rattle.rad_base.specs.declared.names.Nid.{Nid};
ghost use Rattle.routing.specs.RulesFiles.{policy_at, policy_of, reach_at, reach_of, rule_in};

use crate::{Policy, Reach, Rule};
use rad_base::{Nid, parse_nid};
use serde_json::Value;

// The policy of a word.
fn policy_of(text: &str) -> Option<Policy>
    ensures { result ≡ policy_of text.now }
{
    match text {
        "allow" => Some(Policy::Allow),
        "block" => Some(Policy::Block),
        _ => None,
    }
}

// The scope of a word.
fn reach_of(text: &str) -> Option<Reach>
    ensures { result ≡ reach_of text.now }
{
    match text {
        "all" => Some(Reach::All),
        "followed" => Some(Reach::Followed),
        _ => None,
    }
}

/// The policy that a value has under this name, or else the other. None where it is another word.
pub fn policy_at(value: &Value, name: &str, absent: Policy) -> Option<Policy>
    ensures { result ≡ policy_at name.now absent (view value.now) }
{
    let Some(said) = value.get(name) else {
        return Some(absent);
    };
    match said.as_str() {
        Some(text) => policy_of(text),
        None => None,
    }
}

/// The scope that a value has, or else the other. None where it is another word.
pub fn reach_at(value: &Value, absent: Reach) -> Option<Reach>
    ensures { result ≡ reach_at absent (view value.now) }
{
    let Some(said) = value.get("scope") else {
        return Some(absent);
    };
    match said.as_str() {
        Some(text) => reach_of(text),
        None => None,
    }
}

/// The rule of a member of `repos`, whose scope is the file's where it has none.
pub fn rule_in(value: &Value, file: Reach) -> Option<Rule>
    ensures { result ≡ rule_in file (view value.now) }
{
    if !value.is_object() {
        return None;
    }
    let policy = policy_at(value, "policy", Policy::Allow)?;
    let reach = reach_at(value, file)?;
    Some(Rule { policy, reach })
}

/// The key that an element is the text of.
pub fn key_in(element: &Value) -> Option<Nid>
    ensures found { IfSome result (λ nid. IsNid nid
        × (as_str (view element.now) ≡ Some (encode_lower nid.0))) }
    ensures none { IfNone result ((nid : Nid) → IsNid nid
        → as_str (view element.now) ≡ Some (encode_lower nid.0) → ⊥) }
{
    match element.as_str() {
        Some(text) => parse_nid(text.as_bytes()),
        None => None,
    }
}
