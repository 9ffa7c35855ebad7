// Announcements that are heard in turn, what a table tells of them, and plans by it.
ghost use Rattle.std.specs.Prelude.{IfSome};
ghost use Rattle.announcements.specs.Announcements.{IsAnnouncement};

use crate::filters::{filter_of, rid_of, some};
use crate::rules::{policy_text, reason_text};
use announcements::{Filter, FilterSize, Heard, Table, is_announcement};
use gossip_wire::{Message, read_message};
use keyring::Keyring;
use rad_base::Nid;
use repo_slice::Scope;
use routing::{Routes, Rules, RulesFault, plan};
use std::alloc::Global;
use told_rows::cases::{Scene, Step, asked};
use told_rows::texts::{Line, text};
use told_rows::words::{bytes_of, cut, nid_of, number_of, words_of};

/// A keyring, what a table keeps, a filter, the peers of links, and rules.
#[derive(Drop)]
pub struct Hearing {
    keyring: Keyring,
    table: Table,
    made: Option<Filter>,
    peers: Vec<Option<Nid>>,
    rules: Option<Rules>,
}

// The keyring of digits.
fn keyring_of(alloc: Global, digits: &str) -> Option<Keyring> {
    Keyring::read(alloc, &bytes_of(alloc, digits)?).ok()
}

// The announcement that digits are, if they are one.
fn announcement_of(alloc: Global, digits: &str) -> Option<Message>
    ensures { IfSome result IsAnnouncement }
{
    let message = read_message(alloc, &bytes_of(alloc, digits)?).ok()?;
    if is_announcement(&message) {
        Some(message)
    } else {
        None
    }
}

// The word of an answer.
fn answer_text(heard: Heard) -> &'static str {
    match heard {
        Heard::Raised => "raised",
        Heard::Older => "older",
        Heard::Same => "same",
        Heard::Early => "early",
        Heard::NotAccepted => "not-accepted",
    }
}

impl Hearing {
    // Hears a message.
    fn hear(&mut self, alloc: Global, now: &str, digits: &str) -> Option<String> {
        let now = number_of(now)?;
        let message = announcement_of(alloc, digits)?;
        let heard = self.table.hear(alloc, &message, now, &self.keyring).ok()?;
        text(alloc, answer_text(heard))
    }

    // The messages of two times that a filter has.
    fn told(&self, alloc: Global, filter: &Filter, from: &str, to: &str) -> Option<String> {
        let (from, to) = (number_of(from)?, number_of(to)?);
        let mut words = Line::new(alloc);
        for message in &self.table.since(alloc, filter, from, to).ok()? {
            words.bytes(alloc, message.as_slice())?;
        }
        Some(words.into_string())
    }

    // The messages of two times that the filter of a name has.
    fn since(&self, alloc: Global, name: &str, from: &str, to: &str) -> Option<String> {
        match name {
            "full" => self.told(alloc, &Filter::full(alloc).ok()?, from, to),
            "empty" => self.told(
                alloc,
                &Filter::empty(alloc, FilterSize::Small).ok()?,
                from,
                to,
            ),
            "some" => self.told(alloc, &some(alloc)?, from, to),
            _ => self.told(alloc, self.made.as_ref()?, from, to),
        }
    }

    // The nodes that have a repository.
    fn nodes(&self, alloc: Global, digits: &str) -> Option<String> {
        let routes = Routes::of(alloc, &self.table).ok()?;
        let mut words = Line::new(alloc);
        for node in routes.nodes(alloc, &rid_of(digits)?).ok()?.as_slice() {
            words.bytes(alloc, &node.0)?;
        }
        Some(words.into_string())
    }

    // Takes the peers of a line.
    fn read_peers(&mut self, alloc: Global, rest: &str) -> Option<()> {
        self.peers.clear();
        for digits in &words_of(alloc, rest)? {
            self.peers.push(nid_of(digits)).ok()?;
        }
        Some(())
    }

    // The plan for the peers.
    fn plan(&self, alloc: Global) -> Option<String> {
        let routes = Routes::of(alloc, &self.table).ok()?;
        let mut words = Line::new(alloc);
        for planned in &plan(alloc, &self.peers, &routes, self.rules.as_ref()?).ok()? {
            words.oid(alloc, &planned.rid.0)?;
            words.number(alloc, planned.link as u64)?;
        }
        Some(words.into_string())
    }

    // Whether the rules take a repository.
    fn allows(&self, alloc: Global, digits: &str) -> Option<String> {
        text(
            alloc,
            policy_text(self.rules.as_ref()?, &rid_of(digits)?, "yes", "no"),
        )
    }

    // The scope of a repository.
    fn scope(&self, alloc: Global, digits: &str) -> Option<String> {
        let mut words = Line::new(alloc);
        match self.rules.as_ref()?.scope(alloc, &rid_of(digits)?).ok()? {
            Scope::All => words.word("all")?,
            Scope::Followed(nodes) => {
                words.word("followed")?;
                for node in nodes.as_slice() {
                    words.bytes(alloc, &node.0)?;
                }
            }
        }
        Some(words.into_string())
    }

    // Does what a line says of rules.
    fn follow_rules(&mut self, alloc: Global, word: &str, rest: &str) -> Option<Step> {
        let (first, told) = cut(rest);
        match word {
            "rules" => self.rules = Rules::read(alloc, &bytes_of(alloc, rest)?).ok(),
            "refused" => {
                let got = match Rules::read(alloc, &bytes_of(alloc, first)?) {
                    Err(RulesFault::BadRules(reason)) => reason_text(reason),
                    _ => "read",
                };
                return asked(alloc, text(alloc, got), told);
            }
            "allows" => return asked(alloc, self.allows(alloc, first), told),
            "scope" => return asked(alloc, self.scope(alloc, first), told),
            "plan" => return asked(alloc, self.plan(alloc), rest),
            _ => return None,
        }
        Some(Step::Told)
    }
}

impl Scene for Hearing {
    // Nothing is heard, under an empty keyring.
    fn begin(alloc: Global) -> Option<Self> {
        Some(Hearing {
            keyring: keyring_of(alloc, "-")?,
            table: Table::new(alloc),
            made: None,
            peers: Vec::new(alloc),
            rules: None,
        })
    }

    fn follow(&mut self, alloc: Global, word: &str, rest: &str) -> Option<Step> {
        let (first, more) = cut(rest);
        let (second, behind) = cut(more);
        match word {
            "keyring" => self.keyring = keyring_of(alloc, rest)?,
            "filter" => self.made = Some(filter_of(alloc, first, more)?),
            "peers" => self.read_peers(alloc, rest)?,
            "hear" => return asked(alloc, self.hear(alloc, first, second), behind),
            "kept" => {
                let count = self.table.len();
                return asked(alloc, format!(in alloc; "{count}").ok(), rest);
            }
            "since" => {
                let (to, told) = cut(behind);
                return asked(alloc, self.since(alloc, first, second, to), told);
            }
            "nodes" => return asked(alloc, self.nodes(alloc, first), more),
            _ => return self.follow_rules(alloc, word, rest),
        }
        Some(Step::Told)
    }
}
