// Canonical heads of tips.
use crate::objects::put;
use canonical_head::answer::Head;
use canonical_head::head;
use commit_graph::MemObjects;
use rad_base::Oid;
use std::alloc::Global;
use told_rows::cases::{Scene, Step, asked};
use told_rows::texts::{Line, named, text};
use told_rows::words::oid_of;

/// Objects, the tips, and how many votes are needed.
#[derive(Drop)]
pub struct Votes {
    objects: MemObjects,
    tips: Vec<Oid>,
    threshold: u8,
}

// The words of a head.
fn head_text(alloc: Global, found: Head) -> Option<String> {
    match found {
        Head::At(oid) => named(alloc, "at", &oid),
        Head::NoQuorum => text(alloc, "none"),
        Head::NoBranch => text(alloc, "no-branch"),
        Head::Diverging(one, other) => {
            let mut words = Line::new(alloc);
            words.word("diverging")?;
            words.oid(alloc, &one)?;
            words.oid(alloc, &other)?;
            Some(words.into_string())
        }
    }
}

impl Votes {
    // The head of the tips.
    fn head(&mut self, alloc: Global) -> Option<String> {
        let found = head(alloc, &mut self.objects, &self.tips, self.threshold).ok()?;
        head_text(alloc, found)
    }
}

impl Scene for Votes {
    // No object and no tip.
    fn begin(alloc: Global) -> Option<Self> {
        Some(Votes {
            objects: MemObjects::new(alloc),
            tips: Vec::new(alloc),
            threshold: 0,
        })
    }

    fn follow(&mut self, alloc: Global, word: &str, rest: &str) -> Option<Step> {
        match word {
            "object" => put(alloc, &mut self.objects, rest)?,
            "tip" => self.tips.push(oid_of(rest)?).ok()?,
            "threshold" => self.threshold = rest.parse::<u8>().ok()?,
            "head" => return asked(alloc, self.head(alloc), rest),
            _ => return None,
        }
        Some(Step::Told)
    }
}
