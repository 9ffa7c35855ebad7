// Commits, read from the front.
ghost use Rattle.std.specs.Prelude.{◌≡◌, ◌↔◌, ◌++◌, IfErr, IfNone, IfOk, IfSome, IsOk};
ghost use Rattle.std.specs.Iterator.{YieldsFirst, item_count};
ghost use Rattle.rad_base.specs.Sizes.{IsOid};
ghost use Rattle.git_object.specs.Grammar.{IsCommit, SpellsCommit, oid_line};
ghost use Rattle.git_object.specs.Places.{BreaksCommit, HasNoLine, StandsBehindParents};
ghost use Rattle.git_object.specs.Views.{commit_of_parts, parents_of};

use crate::Bad;
use crate::digits::name_front;
use rad_base::{Oid, after};

/// The parents of a commit that are left, in order.
#[derive(Clone, Copy, Debug)]
pub struct Parents<'a> {
    rest: &'a [u8],
}

/// The parts of a commit.
#[derive(Clone, Copy, Debug)]
pub struct CommitParts<'a> {
    /// The name of the tree.
    pub tree: Oid,
    /// The names of the parents, in order.
    pub parents: Parents<'a>,
    /// All that follows: authors, times and the message. It begins with `author `.
    pub rest: &'a [u8],
}

// The line of a word and a name at the front, and what stands behind it.
pub(crate) fn oid_line_at<'a>(bytes: &'a [u8], word: &[u8]) -> Option<(Oid, &'a [u8])>
    ensures found { IfSome result (λ x. IsOid x.0
        × (bytes.now ≡ oid_line word.now x.0 ++ x.1.now)) }
    ensures none { IfNone result (HasNoLine word.now bytes.now) }
{
    let digits = after(bytes, word)?;
    let (oid, rest) = name_front(digits)?;
    let rest = after(rest, b"\n")?;
    Some((oid, rest))
}

impl<'a> Iterator for Parents<'a> {
    type Item = Oid;

    ghost next_gives = { YieldsFirst parents_of };

    ghost remaining = { item_count parents_of };

    fn next(&mut self) -> Option<Oid> {
        let (parent, rest) = oid_line_at(self.rest, b"parent ")?;
        self.rest = rest;
        Some(parent)
    }
}

// What stands behind the lines of parents.
fn behind_parents(bytes: &[u8]) -> &[u8]
    ensures { StandsBehindParents bytes.now result.now }
{
    let mut rest = bytes;
    'reading: while let Some((_, more)) = oid_line_at(rest, b"parent ") {
        rest = more;
    }
    rest
}

/// The parts of a commit, which lie in the bytes. Bad exactly where the bytes are not a commit's: a
/// line `tree` with a name, lines `parent` with a name each, and then `author ` and any bytes.
///
/// This is after Git's object format, in this project's profile: any bytes behind `author `.
pub fn read_commit(bytes: &[u8]) -> Result<CommitParts<'_>, Bad>
    ensures commit { IfOk result (λ parts. SpellsCommit (commit_of_parts parts) bytes.now) }
    ensures bad { IfErr result (λ bad. BreaksCommit bytes.now bad.place) }
    ensures exact { IsOk result ↔ IsCommit bytes.now }
{
    let Some((tree, behind_tree)) = oid_line_at(bytes, b"tree ") else {
        return Err(Bad { place: 0 });
    };
    let rest = behind_parents(behind_tree);
    let Some(_) = after(rest, b"author ") else {
        let place = bytes.len() - rest.len();
        return Err(Bad { place });
    };
    let parents = Parents { rest: behind_tree };
    Ok(CommitParts {
        tree,
        parents,
        rest,
    })
}
