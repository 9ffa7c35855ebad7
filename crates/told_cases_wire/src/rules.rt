// Rules files.
use rad_base::{Oid, Rid};
use repo_slice::Scope;
use routing::{Reason, Rules, RulesFault};
use std::alloc::Global;
use told_rows::rows::Row;
use told_rows::texts::{Line, text};
use told_rows::words::bytes_of;

/// The table of rules files.
#[derive(Clone, Copy)]
pub struct RulesFiles;

// A repository that no file names.
const OTHER: Rid = Rid(Oid([0x5b; 20]));

/// The word of what is wrong with a file.
pub fn reason_text(reason: Reason) -> &'static str {
    match reason {
        Reason::TooLong => "too-long",
        Reason::NotJson => "not-json",
        Reason::BadDefault => "bad-default",
        Reason::BadScope => "bad-scope",
        Reason::BadRepos => "bad-repos",
        Reason::BadFollow => "bad-follow",
    }
}

/// The word of whether a repository is taken.
pub fn policy_text(rules: &Rules, rid: &Rid, yes: &'static str, no: &'static str) -> &'static str {
    if rules.allows(rid) { yes } else { no }
}

// The words before the last one, and the last one.
fn split_last(text: &str) -> (&str, &str) {
    match text.rsplit_once(' ') {
        Some(parts) => parts,
        None => ("", text),
    }
}

impl Row for RulesFiles {
    // `ok`, the policy and the scope of a repository that is not named, with how many keys are
    // followed where these are the scope, or what is wrong.
    fn answer(&self, alloc: Global, asked: &str) -> Option<String> {
        match Rules::read(alloc, &bytes_of(alloc, asked)?) {
            Ok(rules) => {
                let mut words = Line::new(alloc);
                words.word("ok")?;
                words.word(policy_text(&rules, &OTHER, "allow", "block"))?;
                match rules.scope(alloc, &OTHER).ok()? {
                    Scope::All => words.word("all")?,
                    Scope::Followed(nodes) => {
                        words.word("followed")?;
                        words.number(alloc, nodes.as_slice().len() as u64)?;
                    }
                }
                Some(words.into_string())
            }
            Err(RulesFault::BadRules(reason)) => text(alloc, reason_text(reason)),
            Err(RulesFault::NoMemory) => None,
        }
    }

    // How many repositories a file names cannot be asked, nor how many keys it follows where the
    // scope is all.
    fn compared(&self, alloc: Global, told: &str) -> Option<String> {
        if !told.starts_with("ok ") {
            return text(alloc, told);
        }
        let (front, keys) = split_last(told);
        let (front, _) = split_last(front);
        if front.ends_with(" followed") {
            return format!(in alloc; "{front} {keys}").ok();
        }
        text(alloc, front)
    }
}
