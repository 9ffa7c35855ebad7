// Writing the parts of sections.
ghost use Rattle.std.specs.Prelude.{◌≡◌, ◌++◌, ◌≤◌, ◌<◌, ◌^◌, IfOk, OnOk, length};
ghost use Rattle.std.specs.List.{flat_map};
ghost use Rattle.fetch_wire.specs.Sections.{IsWithin, kind_byte, object_text, offer_text, part_text};
ghost use Rattle.rad_base.specs.RemoteTexts.{pair_text};

use crate::Part;
use git_object::Kind;
use rad_base::{Nid, NoMemory, Offer, Oid};
use std::alloc::Global;

/// The byte that stands for a kind: 1 commit, 2 tree, 3 blob, 4 tag.
pub(crate) fn kind_byte(kind: Kind) -> u8
    ensures { result ≡ kind_byte kind }
{
    match kind {
        Kind::Commit => 1,
        Kind::Tree => 2,
        Kind::Blob => 3,
        Kind::Tag => 4,
    }
}

// Remotes, one behind the other.
fn push_remotes(bytes: &mut Vec<u8>, remotes: &[(Nid, Oid)]) -> Result<(), NoMemory>
    ensures { OnOk result (bytes.new.items ≡ bytes.old.items ++ flat_map pair_text remotes.now) }
{
    'remotes: for remote in remotes {
        bytes.extend_from_slice(&remote.0.0)?;
        bytes.extend_from_slice(&remote.1.0)?;
    }
    Ok(())
}

// The head of an identity section.
fn push_offer(bytes: &mut Vec<u8>, offer: &Offer) -> Result<(), NoMemory>
    requires { length offer.now.remotes ≤ 1024 }
    ensures { OnOk result (bytes.new.items ≡ bytes.old.items ++ offer_text offer.now) }
{
    bytes.push(b'I')?;
    bytes.extend_from_slice(&offer.id.0)?;
    let remotes = offer.remotes.as_slice();
    bytes.extend_from_slice(&(remotes.len() as u16).to_be_bytes())?;
    push_remotes(bytes, remotes)
}

/// Writes an object of a section behind what is there. `NoMemory`: memory was refused, and some
/// bytes of it may be there.
pub fn push_object(bytes: &mut Vec<u8>, kind: Kind, content: &[u8]) -> Result<(), NoMemory>
    requires { length content.now < 2 ^ 32 }
    ensures { OnOk result (bytes.new.items ≡ bytes.old.items ++ object_text kind content.now) }
{
    bytes.push(b'O')?;
    bytes.push(kind_byte(kind))?;
    bytes.extend_from_slice(&(content.len() as u32).to_be_bytes())?;
    bytes.extend_from_slice(content)?;
    Ok(())
}

/// Writes a part behind what is there. The part is within its limits. `NoMemory`: memory was
/// refused, and some bytes of it may be there.
pub fn push_part(bytes: &mut Vec<u8>, part: &Part) -> Result<(), NoMemory>
    requires { IsWithin part.now }
    ensures { OnOk result (bytes.new.items ≡ bytes.old.items ++ part_text part.now) }
{
    match part {
        Part::Offer(offer) => push_offer(bytes, offer)?,
        Part::SigsHead => bytes.push(b'S')?,
        Part::TipsHead => bytes.push(b'D')?,
        Part::Object(kind, content) => push_object(bytes, *kind, content.as_slice())?,
        Part::End => bytes.extend_from_slice(b"end\n")?,
        Part::Refused(code) => bytes.extend_from_slice(&[b'R', *code])?,
    }
    Ok(())
}

/// The one spelling of a part that is within its limits. `NoMemory`: memory was refused.
pub fn write_part(alloc: Global, part: &Part) -> Result<Vec<u8>, NoMemory>
    requires { IsWithin part.now }
    ensures { IfOk result (λ bytes. bytes.items ≡ part_text part.now) }
{
    let mut bytes = Vec::new(alloc);
    push_part(&mut bytes, part)?;
    Ok(bytes)
}
