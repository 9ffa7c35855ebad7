// Writing the bodies of entries.
ghost use Rattle.std.specs.Prelude.{◌≡◌, ◌++◌, ◌≤◌, ◌<◌, ◌^◌, ◌*◌, length, IfOk, OnOk};
ghost use Rattle.std.specs.List.{flat_map};
ghost use Rattle.repo_entries.specs.Batches.{AreContents, IsBatch};
ghost use Rattle.fetch_wire.specs.Sections.{kind_byte};
ghost use Rattle.rad_base.specs.RemoteTexts.{pair_text};
ghost use Rattle.gossip_wire.specs.Messages.{IsMessage};
ghost use Rattle.announcements.specs.Announcements.{IsAnnouncement};
ghost use Rattle.entry_bodies.specs.Bodies.{heard_text, held_text, install_size, install_text};
ghost use Rattle.entry_bodies.specs.Bodies.{put_size, put_text};

use git_object::Kind;
use gossip_wire::{Message, write_message};
use rad_base::{Bytes, Nid, NoMemory, Oid, Remotes, Rid};
use repo_entries::Batch;
use std::alloc::Global;

// The byte that stands for a kind.
fn byte_of(kind: Kind) -> u8
    ensures { result ≡ kind_byte kind }
{
    match kind {
        Kind::Commit => 1,
        Kind::Tree => 2,
        Kind::Blob => 3,
        Kind::Tag => 4,
    }
}

// The bytes of a name, of which there are 20, as their type says.
fn raw(oid: &Oid) -> &[u8]
    ensures bytes { result.now ≡ oid.now.0 }
    ensures size { length oid.now.0 ≡ 20 }
{
    oid.0.as_slice()
}

// The bytes of a key, of which there are 32, as their type says.
fn raw_key(node: &Nid) -> &[u8]
    ensures bytes { result.now ≡ node.now.0 }
    ensures size { length node.now.0 ≡ 32 }
{
    node.0.as_slice()
}

// Writes a remote behind what is there.
fn push_remote(body: &mut Vec<u8>, remote: &(Nid, Oid)) -> Result<(), NoMemory>
    ensures text { OnOk result (body.new.items ≡ body.old.items ++ pair_text remote.now) }
    ensures size { length (pair_text remote.now) ≡ 52 }
{
    let node = raw_key(&remote.0);
    let oid = raw(&remote.1);
    body.extend_from_slice(node)?;
    body.extend_from_slice(oid)?;
    Ok(())
}

// Writes an object behind what is there.
fn push_object(body: &mut Vec<u8>, kind: Kind, content: &[u8]) -> Result<(), NoMemory>
    requires { length content.now < 2 ^ 32 }
    ensures { OnOk result (body.new.items ≡ body.old.items ++ held_text (kind, content.now)) }
{
    body.push(byte_of(kind))?;
    body.extend_from_slice(&(content.len() as u32).to_be_bytes())?;
    body.extend_from_slice(content)?;
    Ok(())
}

// Writes objects behind what is there.
fn push_objects(body: &mut Vec<u8>, objects: &[(Kind, Bytes)]) -> Result<(), NoMemory>
    requires { AreContents objects.now }
    ensures { OnOk result (body.new.items ≡ body.old.items ++ flat_map held_text objects.now) }
{
    'objects: for (kind, content) in objects {
        push_object(body, *kind, content.as_slice())?;
    }
    Ok(())
}

// Writes remotes behind what is there.
fn push_remotes(body: &mut Vec<u8>, remotes: &[(Nid, Oid)]) -> Result<(), NoMemory>
    ensures text { OnOk result (body.new.items ≡ body.old.items ++ flat_map pair_text remotes.now) }
    ensures size { OnOk result (length (flat_map pair_text remotes.now) ≡ 52 * length remotes.now) }
{
    'remotes: for remote in remotes {
        push_remote(body, remote)?;
    }
    Ok(())
}

// The bytes of a put of these objects.
fn put_bytes(alloc: Global, rid: &Rid, batch: &Batch) -> Result<Vec<u8>, NoMemory>
    requires few { length batch.now ≤ 1024 }
    requires each { AreContents batch.now }
    ensures text { IfOk result (λ body. body.items ≡ put_text rid.now batch.now) }
    ensures size { length rid.now.0.0 ≡ 20 }
{
    let objects = batch.as_slice();
    let name = raw(&rid.0);
    let mut body = Vec::new(alloc);
    body.push(1)?;
    body.extend_from_slice(name)?;
    body.extend_from_slice(&(objects.len() as u32).to_be_bytes())?;
    push_objects(&mut body, objects)?;
    Ok(body)
}

// The bytes of an install of an identity and of remotes.
fn install_bytes(
    alloc: Global,
    rid: &Rid,
    id: &Oid,
    remotes: &[(Nid, Oid)],
) -> Result<Vec<u8>, NoMemory>
    requires { length remotes.now ≤ 1024 }
    ensures text { IfOk result (λ body. body.items ≡ install_text rid.now id.now remotes.now) }
    ensures sizes { (length rid.now.0.0 ≡ 20) × (length id.now.0 ≡ 20) }
    ensures each { IfOk result (λ _. length (flat_map pair_text remotes.now)
        ≡ 52 * length remotes.now) }
{
    let name = raw(&rid.0);
    let identity = raw(id);
    let mut body = Vec::new(alloc);
    body.push(2)?;
    body.extend_from_slice(name)?;
    body.extend_from_slice(identity)?;
    body.extend_from_slice(&(remotes.len() as u16).to_be_bytes())?;
    push_remotes(&mut body, remotes)?;
    Ok(body)
}

// The bytes of an announcement.
fn heard_bytes(alloc: Global, message: &Message) -> Result<Vec<u8>, NoMemory>
    requires { IsMessage message.now }
    ensures { IfOk result (λ body. body.items ≡ heard_text message.now) }
{
    let bytes = write_message(alloc, message)?;
    let mut body = Vec::new(alloc);
    body.push(3)?;
    body.extend_from_slice(&bytes)?;
    Ok(body)
}

/// The body of a put of these objects, which fits a record of a journal. `NoMemory`: memory for it
/// was refused.
pub fn put_body(alloc: Global, rid: &Rid, batch: &Batch) -> Result<Bytes, NoMemory>
    requires { IsBatch batch.now }
    ensures text { IfOk result (λ body. body ≡ put_text rid.now batch.now) }
    ensures size { IfOk result (λ body. length body ≡ put_size batch.now) }
    ensures fits { IfOk result (λ body. length body ≤ 34000000) }
{
    let body = put_bytes(alloc, rid, batch)?;
    Ok(Bytes::of(body))
}

/// The body of an announcement, which fits a record of a journal. `NoMemory`: memory for it was
/// refused.
pub fn heard_body(alloc: Global, message: &Message) -> Result<Bytes, NoMemory>
    requires { IsAnnouncement message.now }
    ensures text { IfOk result (λ body. body ≡ heard_text message.now) }
    ensures fits { IfOk result (λ body. length body ≤ 34000000) }
{
    let body = heard_bytes(alloc, message)?;
    Ok(Bytes::of(body))
}

/// The body of an install of an identity and of remotes, which fits a record of a journal.
/// `NoMemory`: memory for it was refused.
pub fn install_body(
    alloc: Global,
    rid: &Rid,
    id: &Oid,
    remotes: &Remotes,
) -> Result<Bytes, NoMemory>
    requires { length remotes.now ≤ 1024 }
    ensures text { IfOk result (λ body. body ≡ install_text rid.now id.now remotes.now) }
    ensures size { IfOk result (λ body. length body ≡ install_size remotes.now) }
    ensures fits { IfOk result (λ body. length body ≤ 34000000) }
{
    let body = install_bytes(alloc, rid, id, remotes.as_slice())?;
    Ok(Bytes::of(body))
}
