// Writing requests.
ghost use Rattle.std.specs.Prelude.{◌≡◌, ◌++◌, ◌≤◌, IfOk, OnOk, length};
ghost use Rattle.std.specs.List.{flat_map};
ghost use Rattle.fetch_wire.specs.Requests.{IsWithinLimits, ask_byte, counted_text, haves_text, nid_text, nodes_text, oid_text, request_text};

use crate::{Ask, Request};
use rad_base::{Nid, NoMemory, Oid, Rid};
use std::alloc::Global;

// The first byte of a request with a repository.
fn ask_byte(ask: Ask) -> u8
    ensures { result ≡ ask_byte ask }
{
    match ask {
        Ask::Begin => 1,
        Ask::Sigs => 2,
        Ask::Tips => 3,
    }
}

fn push_oids(bytes: &mut Vec<u8>, oids: &[Oid]) -> Result<(), NoMemory>
    ensures { OnOk result (bytes.new.items ≡ bytes.old.items ++ flat_map oid_text oids.now) }
{
    'oids: for oid in oids {
        bytes.extend_from_slice(&oid.0)?;
    }
    Ok(())
}

fn push_nids(bytes: &mut Vec<u8>, nids: &[Nid]) -> Result<(), NoMemory>
    ensures { OnOk result (bytes.new.items ≡ bytes.old.items ++ flat_map nid_text nids.now) }
{
    'nids: for nid in nids {
        bytes.extend_from_slice(&nid.0)?;
    }
    Ok(())
}

// The first byte, the repository and the haves.
fn push_haves(bytes: &mut Vec<u8>, ask: Ask, rid: Rid, haves: &[Oid]) -> Result<(), NoMemory>
    requires { length haves.now ≤ 2048 }
    ensures { OnOk result (bytes.new.items ≡ bytes.old.items ++ haves_text ask rid haves.now) }
{
    bytes.push(ask_byte(ask))?;
    bytes.extend_from_slice(&rid.0.0)?;
    bytes.extend_from_slice(&(haves.len() as u16).to_be_bytes())?;
    push_oids(bytes, haves)
}

fn push_nodes(bytes: &mut Vec<u8>, nodes: &[Nid]) -> Result<(), NoMemory>
    requires { length nodes.now ≤ 1024 }
    ensures { OnOk result (bytes.new.items
        ≡ bytes.old.items ++ counted_text nid_text (length nodes.now) nodes.now) }
{
    bytes.extend_from_slice(&(nodes.len() as u16).to_be_bytes())?;
    push_nids(bytes, nodes)
}

/// The one spelling of a request, which has no more haves and nodes than it may. `NoMemory`: memory
/// was refused.
pub fn write_request(alloc: Global, request: &Request) -> Result<Vec<u8>, NoMemory>
    requires { IsWithinLimits request.now }
    ensures { IfOk result (λ bytes. bytes.items ≡ request_text request.now) }
{
    let mut bytes = Vec::new(alloc);
    match request {
        Request::Begin(rid, haves) => {
            push_haves(&mut bytes, Ask::Begin, *rid, haves.as_slice())?;
        }
        Request::Sigs(rid, haves, nodes) => {
            push_haves(&mut bytes, Ask::Sigs, *rid, haves.as_slice())?;
            push_nodes(&mut bytes, nodes.as_slice())?;
        }
        Request::Tips(rid, haves, nodes) => {
            push_haves(&mut bytes, Ask::Tips, *rid, haves.as_slice())?;
            push_nodes(&mut bytes, nodes.as_slice())?;
        }
        Request::Done => bytes.push(4)?,
    }
    Ok(bytes)
}
