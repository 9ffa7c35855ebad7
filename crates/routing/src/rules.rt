// Rules: which repositories are taken, and whose remotes of them.
ghost use Rattle.std.specs.Prelude.{◌≡◌, ◌≢◌, ◌≤◌, List, codes, IfOk, IfErr, IsSome, Some, length};
ghost use Rattle.serde_json.specs.Find.{as_object, get};
ghost use Rattle.serde_json.specs.View.{view};
ghost use Rattle.rad_base.specs.declared.names.Nid.{Nid};
ghost use Rattle.rad_base.specs.declared.names.Rid.{Rid};
ghost use Rattle.identity_doc.specs.Texts.{IsJson};
ghost use Rattle.routing.specs.RulesFiles.{AreRules, ExplainsRules, HasKeys, HasRepos};
ghost use Rattle.routing.specs.RulesFiles.{IsRulesFile, allows, rule_for, scope_for};
ghost use Rattle.routing.specs.RulesFiles.{ExplainsValue, FailsWith};
ghost use Rattle.routing.specs.declared.rule.Rule.{Rule};
ghost use Rattle.routing.specs.declared.rules_fault.Reason.TheVariants as reason;
ghost use Rattle.routing.specs.declared.rules_fault.RulesFault.TheVariants as faults;

use crate::repos::{keys_in, repos_in};
use crate::words::{policy_at, reach_at};
use crate::{Policy, Reach, Reason, Rule, RulesFault};
use rad_base::{Nids, NoMemory, Rid};
use repo_slice::Scope;
use serde_json::Value;
use std::alloc::Global;
use std::collections::BTreeMap;
use std::marker::Model;

// A rules file has at most so many bytes.
const MOST: usize = 16_777_216;

/// Which repositories are taken, and whose remotes of them are wanted.
#[derive(Drop)]
pub struct Rules {
    pub(crate) policy: Policy,
    pub(crate) reach: Reach,
    pub(crate) repos: BTreeMap<Rid, Rule>,
    pub(crate) follow: Nids,
}

impl Model for Rules {
    ghost use Rattle.routing.specs.RulesFiles.{Said};

    ghost Value = { Said };

    ghost view = { λ rules. record {
      policy = rules.policy;
      reach = rules.reach;
      repos = rules.repos.entries;
      follow = rules.follow;
    } };
}

// The JSON value of a file, which is an object.
fn value_of(alloc: Global, bytes: &[u8]) -> Result<Value, RulesFault>
    requires { length bytes.now ≤ 16777216 }
    ensures read { IfOk result (λ value. IsJson bytes.now (view value)) }
    ensures object { IfOk result (λ value. IsSome (as_object (view value))) }
    ensures refused { IfErr result (ExplainsValue bytes.now) }
{
    match Value::from_slice(alloc, bytes) {
        Ok(value) if value.is_object() => Ok(value),
        Ok(_) => Err(RulesFault::BadRules(Reason::NotJson)),
        Err(error) if error.is_memory() => Err(RulesFault::NoMemory),
        Err(_) => Err(RulesFault::BadRules(Reason::NotJson)),
    }
}

// The repositories that are named, with their rules.
fn repos_of(alloc: Global, value: &Value, file: Reach) -> Result<BTreeMap<Rid, Rule>, RulesFault>
    ensures read { IfOk result (λ repos.
        HasRepos file (get (codes "repos") (view value.now)) repos.entries) }
    ensures refused { IfErr result (λ fault. fault ≢ faults.NoMemory → (fault ≡ faults.BadRules reason.BadRepos)
        × ((repos : List (Rid × Rule))
        → HasRepos file (get (codes "repos") (view value.now)) repos → ⊥)) }
{
    let Some(said) = value.get("repos") else {
        return Ok(BTreeMap::new(alloc));
    };
    let Some(members) = said.as_object() else {
        return Err(RulesFault::BadRules(Reason::BadRepos));
    };
    repos_in(alloc, members, file)
}

// The nodes that are followed.
fn follow_of(alloc: Global, value: &Value) -> Result<Nids, RulesFault>
    ensures read { IfOk result (HasKeys (get (codes "follow") (view value.now))) }
    ensures refused { IfErr result (λ fault. fault ≢ faults.NoMemory → (fault ≡ faults.BadRules reason.BadFollow)
        × ((nids : List Nid) → HasKeys (get (codes "follow") (view value.now)) nids → ⊥)) }
{
    let Some(said) = value.get("follow") else {
        return Ok(Nids::new(alloc));
    };
    let Some(elements) = said.as_array() else {
        return Err(RulesFault::BadRules(Reason::BadFollow));
    };
    keys_in(alloc, elements.as_slice())
}

impl Rules {
    // The rules that an object is.
    fn of(alloc: Global, value: &Value) -> Result<Rules, RulesFault>
        requires { IsSome (as_object (view value.now)) }
        ensures read { IfOk result (AreRules (view value.now)) }
        ensures refused { IfErr result (FailsWith (view value.now)) }
    {
        let Some(policy) = policy_at(value, "default", Policy::Block) else {
            return Err(RulesFault::BadRules(Reason::BadDefault));
        };
        let Some(reach) = reach_at(value, Reach::All) else {
            return Err(RulesFault::BadRules(Reason::BadScope));
        };
        let repos = repos_of(alloc, value, reach)?;
        let follow = follow_of(alloc, value)?;
        Ok(Rules {
            policy,
            reach,
            repos,
            follow,
        })
    }

    /// Reads a rules file, which is this project's own format: a JSON object, as serde_json reads
    /// it, of at most 16,777,216 bytes. Its members, of which each may be absent:
    ///
    /// - `default`: `"allow"` or `"block"`, which it is where it is absent;
    /// - `scope`: `"all"`, which it is where it is absent, or `"followed"`;
    /// - `repos`: an object whose names are repositories in 40 lower case hexadecimal digits and
    ///   whose members are objects with a `policy`, spelled as `default`, which is `"allow"` where
    ///   it is absent, and a `scope`, which is the file's where it is absent;
    /// - `follow`: an array of keys in 64 lower case hexadecimal digits.
    ///
    /// Other members are unread. `BadRules` with the first `Reason` that applies.
    pub fn read(alloc: Global, bytes: &[u8]) -> Result<Rules, RulesFault>
        ensures read { IfOk result (IsRulesFile bytes.now) }
        ensures refused { IfErr result (ExplainsRules bytes.now) }
    {
        if bytes.len() > MOST {
            return Err(RulesFault::BadRules(Reason::TooLong));
        }
        let value = value_of(alloc, bytes)?;
        Rules::of(alloc, &value)
    }

    // What holds of a repository.
    fn rule(&self, rid: &Rid) -> Rule
        ensures { result ≡ rule_for self.now rid.now }
    {
        match self.repos.get(rid) {
            Some(rule) => *rule,
            None => Rule {
                policy: self.policy,
                reach: self.reach,
            },
        }
    }

    /// Whether a repository is taken. It takes no memory.
    pub fn allows(&self, rid: &Rid) -> bool
        ensures { result ≡ allows self.now rid.now }
    {
        matches!(self.rule(rid).policy, Policy::Allow)
    }

    /// Whose remotes of a repository are wanted. `NoMemory`: memory for the keys was refused.
    pub fn scope(&self, alloc: Global, rid: &Rid) -> Result<Scope, NoMemory>
        ensures { IfOk result (λ scope. scope ≡ scope_for self.now rid.now) }
    {
        match self.rule(rid).reach {
            Reach::All => Ok(Scope::All),
            Reach::Followed => {
                let follow = self.follow.as_slice().to_vec(alloc)?;
                Ok(Scope::Followed(Nids::of(follow)))
            }
        }
    }
}
