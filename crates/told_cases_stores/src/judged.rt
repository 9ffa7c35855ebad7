// Offers that are judged, and what is asked for before.
use crate::stores::keyring_of;
use canonical_head::answer::Head;
use keyring::Keyring;
use rad_base::{Bytes, Nids, NoMemory, Offer, Oid, Remotes, Rid};
use repo_slice::{Batch, Entry, Judged, Scope, Slice, Stage, Whole, judge, wants};
use report_texts::{push_head, push_id_outcome, push_outcome, push_whole};
use std::alloc::Global;
use told_rows::cases::{Scene, Step, asked};
use told_rows::texts::{Line, of_bytes, text};
use told_rows::words::{bytes_of, cut, kind_of, nid_of, oid_of, words_of};

/// Repositories, and the offer of the last one.
#[derive(Drop)]
pub struct Offers {
    keyring: Keyring,
    // Of these the last one is the offer's.
    slices: Vec<Slice>,
    offer: Offer,
    scope: Scope,
    judged: Option<Judged>,
    compared: usize,
}

// An offer of an identity and of no remote.
fn bare(alloc: Global, id: Oid) -> Offer {
    Offer {
        id,
        remotes: Remotes::new(alloc),
    }
}

// The offer of a line. None where its keys do not rise.
fn offer_of(alloc: Global, rest: &str) -> Option<Offer> {
    let (id, more) = cut(rest);
    let mut offer = bare(alloc, oid_of(id)?);
    let words = words_of(alloc, more)?;
    for pair in words.chunks(2) {
        let [node, commit] = pair else {
            return None;
        };
        let (node, commit) = (nid_of(node)?, oid_of(commit)?);
        if !offer.remotes.is_above(&node) {
            return None;
        }
        offer.remotes.push(node, commit).ok()?;
    }
    Some(offer)
}

// The scope of a line.
fn scope_of(alloc: Global, rest: &str) -> Option<Scope> {
    let (word, more) = cut(rest);
    if word == "all" {
        return Some(Scope::All);
    }
    let mut nodes = Nids::new(alloc);
    for digits in &words_of(alloc, more)? {
        nodes.push(nid_of(digits)?).ok()?;
    }
    Some(Scope::Followed(nodes))
}

// Puts the objects of a batch into a slice.
fn put(alloc: Global, slice: &mut Slice, batch: &Batch) -> Result<(), NoMemory> {
    let names = batch.names(alloc)?;
    let entry = Entry::Put {
        rid: *slice.rid(),
        names,
        caller: 0,
    };
    slice.stage(alloc, &entry, batch)?;
    slice.admit(alloc, &entry)
}

// The batch of one object: a kind and digits.
fn batch_of(alloc: Global, text: &str) -> Option<Batch> {
    let (word, digits) = cut(text);
    let content = bytes_of(alloc, digits)?;
    let mut batch = Batch::new(alloc);
    batch.push(kind_of(word)?, Bytes::of(content)).ok()?;
    Some(batch)
}

// Installs what was judged.
fn install(alloc: Global, slice: &mut Slice, judged: Judged) -> Result<(), NoMemory> {
    let entry = Entry::Install {
        rid: *slice.rid(),
        id: judged.next_id,
        remotes: judged.advanced,
        caller: 0,
    };
    slice.stage(alloc, &entry, &Batch::new(alloc))?;
    slice.admit(alloc, &entry)
}

// The words of a head.
fn head_text(alloc: Global, found: &Head) -> Option<String> {
    let mut bytes = Vec::new(alloc);
    push_head(&mut bytes, found).ok()?;
    of_bytes(bytes)
}

// The words of a whole refusal.
fn whole_text(alloc: Global, why: &Whole) -> Option<String> {
    let mut bytes = Vec::new(alloc);
    push_whole(&mut bytes, why).ok()?;
    of_bytes(bytes)
}

// The words of what becomes of the identity.
fn judged_text(alloc: Global, judged: &Judged) -> Option<String> {
    let mut bytes = Vec::new(alloc);
    push_id_outcome(&mut bytes, judged.id_outcome).ok()?;
    let mut words = Line::new(alloc);
    words.word(of_bytes(bytes)?.as_str())?;
    words.oid(alloc, &judged.next_id)?;
    Some(words.into_string())
}

// What becomes of an offer of a slice that has no more remotes than it may.
fn verdict(
    alloc: Global,
    slice: &mut Slice,
    offer: &Offer,
    keyring: &Keyring,
    scope: &Scope,
) -> Option<Result<Judged, Whole>> {
    if slice.remotes().as_slice().len() > 1024 {
        return None;
    }
    judge(alloc, slice, offer, keyring, scope).ok()
}

// The nodes that are asked for.
fn wanted(
    alloc: Global,
    slice: &mut Slice,
    offer: &Offer,
    keyring: &Keyring,
    scope: &Scope,
    stage: Stage,
) -> Option<String> {
    let nodes = wants(alloc, slice, offer, keyring, scope, stage).ok()?;
    let mut words = Line::new(alloc);
    for node in nodes.as_slice() {
        words.bytes(alloc, &node.0)?;
    }
    Some(words.into_string())
}

impl Offers {
    // Makes the slice of a repository the last one.
    fn turn_to(&mut self, alloc: Global, rid: Rid) -> Option<()> {
        let mut others = Vec::new(alloc);
        let mut found = Slice::new(alloc, &rid);
        for _ in 0..self.slices.len() {
            match self.slices.pop() {
                Some(slice) if *slice.rid() == rid => found = slice,
                Some(slice) => others.push(slice).ok()?,
                None => {}
            }
        }
        self.slices = others;
        self.slices.push(found).ok()
    }

    // Puts an object into the last slice.
    fn put(&mut self, alloc: Global, rest: &str) -> Option<()> {
        let batch = batch_of(alloc, rest)?;
        put(alloc, self.slices.last_mut()?, &batch).ok()
    }

    // The nodes that are asked for at a stage.
    fn wanted(&mut self, alloc: Global, word: &str) -> Option<String> {
        let stage = if word == "sigs" {
            Stage::Sigs
        } else {
            Stage::Tips
        };
        let slice = self.slices.last_mut()?;
        wanted(alloc, slice, &self.offer, &self.keyring, &self.scope, stage)
    }

    // What becomes of the offer: the word of a whole refusal, or that it was judged.
    fn judge(&mut self, alloc: Global) -> Option<String> {
        let slice = self.slices.last_mut()?;
        self.compared = 0;
        self.judged = None;
        match verdict(alloc, slice, &self.offer, &self.keyring, &self.scope)? {
            Ok(judged) => {
                let told = judged_text(alloc, &judged)?;
                self.judged = Some(judged);
                format!(in alloc; "judged {told}").ok()
            }
            Err(why) => {
                let told = whole_text(alloc, &why)?;
                format!(in alloc; "whole {told}").ok()
            }
        }
    }

    // The outcome of the next remote.
    fn outcome(&mut self, alloc: Global) -> Option<String> {
        let at = self.compared;
        self.compared = at.saturating_add(1);
        let (node, outcome) = self.judged.as_ref()?.outcomes.as_slice().get(at)?;
        let mut bytes = Vec::new(alloc);
        push_outcome(&mut bytes, outcome, self.offer.remotes.get(node)).ok()?;
        let mut words = Line::new(alloc);
        words.bytes(alloc, &node.0)?;
        words.word(of_bytes(bytes)?.as_str())?;
        Some(words.into_string())
    }

    // Installs what was judged, where each outcome was compared, and answers the head then.
    fn head(&mut self, alloc: Global) -> Option<String> {
        let judged = self.judged.take()?;
        let all = judged.outcomes.as_slice().len();
        if self.compared != all {
            return format!(in alloc; "{all} outcomes").ok();
        }
        let slice = self.slices.last_mut()?;
        install(alloc, slice, judged).ok()?;
        match slice.head(alloc, &self.keyring).ok()? {
            Some(found) => head_text(alloc, &found),
            None => text(alloc, "no identity"),
        }
    }

    // A line that asks for a verdict, beside it.
    fn judged(&mut self, alloc: Global, word: &str, rest: &str) -> Option<Step> {
        let told = format!(in alloc; "{word} {rest}").ok()?;
        asked(alloc, self.judge(alloc), told.as_str())
    }
}

impl Scene for Offers {
    // No repository, under an empty keyring.
    fn begin(alloc: Global) -> Option<Self> {
        Some(Offers {
            keyring: keyring_of(alloc, "-")?,
            slices: Vec::new(alloc),
            offer: bare(alloc, Oid([0; 20])),
            scope: Scope::All,
            judged: None,
            compared: 0,
        })
    }

    fn follow(&mut self, alloc: Global, word: &str, rest: &str) -> Option<Step> {
        match word {
            "keyring" => self.keyring = keyring_of(alloc, rest)?,
            "rid" => self.turn_to(alloc, Rid(oid_of(rest)?))?,
            "offer" => self.offer = offer_of(alloc, rest)?,
            "scope" => self.scope = scope_of(alloc, rest)?,
            "object" => self.put(alloc, rest)?,
            "wants" => {
                let (stage, told) = cut(rest);
                return asked(alloc, self.wanted(alloc, stage), told);
            }
            "judged" | "whole" => return self.judged(alloc, word, rest),
            "outcome" => return asked(alloc, self.outcome(alloc), rest),
            "head" => return asked(alloc, self.head(alloc), rest),
            _ => return None,
        }
        Some(Step::Told)
    }
}
