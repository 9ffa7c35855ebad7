// The repositories and the keys that a rules file names.
ghost use Rattle.std.specs.Prelude.{◌≡◌, ◌≢◌, ℕ, List, IfOk, IfErr, IfSome, IfNone, OnOk, Some, map};
ghost use Rattle.std.specs.BTreeMap.{Updates};
ghost use Rattle.rad_base.specs.Order.{rid_cmp};
ghost use Rattle.std.specs.String.{string_bytes};
ghost use Rattle.serde_json.specs.View.{members_view, view};
ghost use Rattle.rad_base.specs.declared.names.Nid.{Nid};
ghost use Rattle.rad_base.specs.declared.names.Rid.{Rid};
ghost use Rattle.routing.specs.RulesFiles.{AreKeys, AreRepos, IsRepo, pairs};
ghost use Rattle.routing.specs.declared.rule.Rule.{Rule};
ghost use Rattle.routing.specs.declared.rules_fault.Reason.TheVariants.{BadRepos, BadFollow};
ghost use Rattle.routing.specs.declared.rules_fault.RulesFault.TheVariants as faults;

use crate::words::{key_in, rule_in};
use crate::{Reach, Reason, Rule, RulesFault};
use rad_base::{Nids, NoMemory, Rid, parse_oid};
use serde_json::{Map, Value};
use std::alloc::Global;
use std::collections::BTreeMap;

// The repository of a member of `repos`, with its rule.
fn repo_in(name: &str, value: &Value, file: Reach) -> Option<(Rid, Rule)>
    ensures found { IfSome result (IsRepo file (name.now, view value.now)) }
    ensures none { IfNone result ((repo : Rid × Rule)
        → IsRepo file (name.now, view value.now) repo → ⊥) }
{
    let oid = parse_oid(name.as_bytes())?;
    let rule = rule_in(value, file)?;
    Some((Rid(oid), rule))
}

// Puts a repository's rule.
fn put(repos: &mut BTreeMap<Rid, Rule>, rid: Rid, rule: Rule) -> Result<(), NoMemory>
    ensures { OnOk result (Updates rid_cmp repos.old repos.new rid (Some rule)) }
{
    repos.insert(rid, rule)?;
    Ok(())
}

/// The repositories that the members of `repos` are, with their rules.
pub fn repos_in(
    alloc: Global,
    members: &Map<String, Value>,
    file: Reach,
) -> Result<BTreeMap<Rid, Rule>, RulesFault>
    ensures read { IfOk result (λ repos.
        AreRepos file (pairs (members_view members.now.entries)) repos.entries) }
    ensures refused { IfErr result (λ fault. fault ≢ faults.NoMemory → (fault ≡ faults.BadRules BadRepos)
        × ((repos : List (Rid × Rule))
        → AreRepos file (pairs (members_view members.now.entries)) repos → ⊥)) }
{
    let mut repos = BTreeMap::new(alloc);
    for (name, value) in members.iter() {
        let Some((rid, rule)) = repo_in(name.as_str(), value, file) else {
            return Err(RulesFault::BadRules(Reason::BadRepos));
        };
        put(&mut repos, rid, rule)?;
    }
    let _count = repos.len();
    Ok(repos)
}

/// The keys of which the elements of `follow` are the texts, in order.
pub fn keys_in(alloc: Global, elements: &[Value]) -> Result<Nids, RulesFault>
    ensures read { IfOk result (AreKeys (map view elements.now)) }
    ensures refused { IfErr result (λ fault. fault ≢ faults.NoMemory → (fault ≡ faults.BadRules BadFollow)
        × ((nids : List Nid) → AreKeys (map view elements.now) nids → ⊥)) }
{
    let mut nids = Nids::new(alloc);
    for element in elements {
        match key_in(element) {
            Some(nid) => nids.push(nid)?,
            None => return Err(RulesFault::BadRules(Reason::BadFollow)),
        }
    }
    Ok(nids)
}
