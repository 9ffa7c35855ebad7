// Tags, read from the front.
ghost use Rattle.std.specs.Prelude.{◌≡◌, ◌↔◌, ◌++◌, IfErr, IfNone, IfOk, IfSome, IsOk};
ghost use Rattle.git_object.specs.Grammar.{IsTag, SpellsTag, type_line};
ghost use Rattle.git_object.specs.Places.{BreaksTag, HasNoType};
ghost use Rattle.git_object.specs.Views.{tag_of};

use crate::commit::oid_line_at;
use crate::{Bad, Kind};
use rad_base::{Oid, after};

/// The parts of a tag.
#[derive(Clone, Copy, Debug)]
pub struct TagParts<'a> {
    /// The name of the object that the tag is put on.
    pub object: Oid,
    /// What that object is.
    pub kind: Kind,
    /// All that follows: the tag's own name, who made it, and the message. It begins with `tag `.
    pub rest: &'a [u8],
}

// The line of a kind at the front, and what stands behind it.
fn type_line_at(bytes: &[u8]) -> Option<(Kind, &[u8])>
    ensures found { IfSome result (λ x. bytes.now ≡ type_line x.0 ++ x.1.now) }
    ensures none { IfNone result (HasNoType bytes.now) }
{
    if let Some(rest) = after(bytes, b"type blob\n") {
        return Some((Kind::Blob, rest));
    }
    if let Some(rest) = after(bytes, b"type tree\n") {
        return Some((Kind::Tree, rest));
    }
    if let Some(rest) = after(bytes, b"type commit\n") {
        return Some((Kind::Commit, rest));
    }
    if let Some(rest) = after(bytes, b"type tag\n") {
        return Some((Kind::Tag, rest));
    }
    None
}

/// The parts of a tag, which lie in the bytes. Bad exactly where the bytes are not a tag's: a line
/// `object` with a name, a line `type` with the word of a kind, and then `tag ` and any bytes.
///
/// This is after Git's object format, in this project's profile: any bytes behind `tag `.
pub fn read_tag(bytes: &[u8]) -> Result<TagParts<'_>, Bad>
    ensures tag { IfOk result (λ parts. SpellsTag (tag_of parts) bytes.now) }
    ensures bad { IfErr result (λ bad. BreaksTag bytes.now bad.place) }
    ensures exact { IsOk result ↔ IsTag bytes.now }
{
    let Some((object, behind_object)) = oid_line_at(bytes, b"object ") else {
        return Err(Bad { place: 0 });
    };
    let Some((kind, rest)) = type_line_at(behind_object) else {
        let place = bytes.len() - behind_object.len();
        return Err(Bad { place });
    };
    let Some(_) = after(rest, b"tag ") else {
        let place = bytes.len() - rest.len();
        return Err(Bad { place });
    };
    Ok(TagParts { object, kind, rest })
}
