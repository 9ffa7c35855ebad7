// Closures, histories and chains over objects.
use crate::objects::put;
use commit_graph::answer::Closure;
use commit_graph::{
    ChainFault, MemObjects, Root, chain, closure, closure_by_lists, in_history, reached,
};
use git_object::Kind;
use rad_base::Oid;
use std::alloc::Global;
use told_rows::cases::{Scene, Step, asked};
use told_rows::texts::{Line, named, text};
use told_rows::words::{cut, kind_of, oid_of};

/// Objects, and the roots that are asked for.
#[derive(Drop)]
pub struct Graph {
    objects: MemObjects,
    roots: Vec<Root>,
}

// The words of a closure.
fn closure_text(alloc: Global, found: Closure) -> Option<String> {
    match found {
        Closure::Closed => text(alloc, "closed"),
        Closure::Missing(oid) => named(alloc, "missing", &oid),
        Closure::BadObject(oid) => named(alloc, "bad-object", &oid),
    }
}

// The chain of a commit whose closure is closed.
fn chain_text(alloc: Global, objects: &mut MemObjects, tip: &Oid) -> Option<String> {
    let root = Root {
        oid: *tip,
        kind: Some(Kind::Commit),
    };
    let Closure::Closed = closure(alloc, objects, &[root]).ok()? else {
        return text(alloc, "not closed");
    };
    match chain(alloc, objects, tip) {
        Ok(found) => {
            let mut words = Line::new(alloc);
            words.word("of")?;
            for oid in found.as_slice() {
                words.oid(alloc, oid)?;
            }
            Some(words.into_string())
        }
        Err(ChainFault::TwoParents(oid)) => named(alloc, "two-parents", &oid),
        Err(ChainFault::NoRoot(oid)) => named(alloc, "no-root", &oid),
        Err(ChainFault::Get(_)) => None,
    }
}

impl Graph {
    // Adds a root: a name and a kind, or any.
    fn push_root(&mut self, rest: &str) -> Option<()> {
        let (digits, word) = cut(rest);
        let root = Root {
            oid: oid_of(digits)?,
            kind: kind_of(word),
        };
        self.roots.push(root).ok()
    }

    // The closure, which is that of the slow program too.
    fn closed(&mut self, alloc: Global) -> Option<String> {
        let quick = closure(alloc, &mut self.objects, &self.roots).ok()?;
        let plain = closure_by_lists(alloc, &mut self.objects, &self.roots).ok()?;
        if quick != plain {
            return text(alloc, "quick and plain differ");
        }
        closure_text(alloc, quick)
    }

    // The names that are reached.
    fn reached(&mut self, alloc: Global) -> Option<String> {
        let names = reached(alloc, &mut self.objects, &self.roots).ok()?;
        let mut words = Line::new(alloc);
        for oid in names.as_slice() {
            words.oid(alloc, oid)?;
        }
        Some(words.into_string())
    }

    // Whether a commit lies in the history of another.
    fn history(&mut self, alloc: Global, old: &str, new: &str) -> Option<String> {
        let (old, new) = (oid_of(old)?, oid_of(new)?);
        let is = in_history(alloc, &mut self.objects, &old, &new).ok()?;
        text(alloc, if is { "yes" } else { "no" })
    }
}

impl Scene for Graph {
    // No object.
    fn begin(alloc: Global) -> Option<Self> {
        Some(Graph {
            objects: MemObjects::new(alloc),
            roots: Vec::new(alloc),
        })
    }

    fn follow(&mut self, alloc: Global, word: &str, rest: &str) -> Option<Step> {
        match word {
            "object" => put(alloc, &mut self.objects, rest)?,
            "root" => self.push_root(rest)?,
            "closure" => return asked(alloc, self.closed(alloc), rest),
            "reached" => return asked(alloc, self.reached(alloc), rest),
            "history" => {
                let (old, more) = cut(rest);
                let (new, told) = cut(more);
                return asked(alloc, self.history(alloc, old, new), told);
            }
            "chain" => {
                let (tip, told) = cut(rest);
                let tip = oid_of(tip)?;
                return asked(alloc, chain_text(alloc, &mut self.objects, &tip), told);
            }
            _ => return None,
        }
        Some(Step::Told)
    }
}
