// Writing messages.
ghost use Rattle.std.specs.Prelude.{◌≡◌, ◌++◌, ◌≤◌, IfOk, OnOk, length};
ghost use Rattle.std.specs.List.{AllByRecursion, flat_map};
ghost use Rattle.std.specs.Int.{to_be_bytes, w16, w64};
ghost use Rattle.rad_base.specs.RemoteTexts.{pair_text};
ghost use Rattle.gossip_wire.specs.Fields.{AreAddresses, IsAbout, IsAddress, IsSubscription};
ghost use Rattle.gossip_wire.specs.Fields.{about_text, addresses_text, inventory_text, refs_text};
ghost use Rattle.gossip_wire.specs.Fields.{rid_text, sized, subscription_text, zeros_text};
ghost use Rattle.gossip_wire.specs.Messages.{IsMessage, body_of, message_text, type_of};

use crate::{Addresses, Message};
use rad_base::{Bytes, Nid, NoMemory, Oid, Remotes, Rid, Rids, Sig};
use std::alloc::Global;

// The number of a message's type.
fn type_of(message: &Message) -> u16
    ensures { result ≡ type_of message.now }
{
    match message {
        Message::Hello { .. } => 1,
        Message::Node { .. } => 2,
        Message::Inventory { .. } => 4,
        Message::Refs { .. } => 6,
        Message::Subscribe { .. } => 8,
        Message::Ping { .. } => 10,
        Message::Pong { .. } => 12,
    }
}

// Writes a number of two bytes behind what is there.
fn push_two(out: &mut Vec<u8>, number: u16) -> Result<(), NoMemory>
    ensures { OnOk result (out.new.items ≡ out.old.items ++ to_be_bytes w16 number) }
{
    out.extend_from_slice(&number.to_be_bytes())?;
    Ok(())
}

// Writes a number of eight bytes behind what is there.
fn push_eight(out: &mut Vec<u8>, number: u64) -> Result<(), NoMemory>
    ensures { OnOk result (out.new.items ≡ out.old.items ++ to_be_bytes w64 number) }
{
    out.extend_from_slice(&number.to_be_bytes())?;
    Ok(())
}

// Writes two numbers of eight bytes.
fn push_two_eights(out: &mut Vec<u8>, first: u64, second: u64) -> Result<(), NoMemory>
    ensures { OnOk result
        (out.new.items ≡ out.old.items ++ (to_be_bytes w64 first ++ to_be_bytes w64 second)) }
{
    push_eight(out, first)?;
    push_eight(out, second)?;
    Ok(())
}

// Writes who announces, and the signature.
fn push_signed(out: &mut Vec<u8>, node: &Nid, sig: &Sig) -> Result<(), NoMemory>
    ensures { OnOk result (out.new.items ≡ out.old.items ++ (node.now.0 ++ sig.now.0)) }
{
    out.extend_from_slice(&node.0)?;
    out.extend_from_slice(&sig.0)?;
    Ok(())
}

// Writes a length byte and so many bytes.
fn push_sized(out: &mut Vec<u8>, bytes: &[u8]) -> Result<(), NoMemory>
    requires { length bytes.now ≤ 255 }
    ensures { OnOk result (out.new.items ≡ out.old.items ++ sized bytes.now) }
{
    out.push(bytes.len() as u8)?;
    out.extend_from_slice(bytes)?;
    Ok(())
}

// Writes addresses one behind the other.
fn push_addresses(out: &mut Vec<u8>, addresses: &[Bytes]) -> Result<(), NoMemory>
    requires { AllByRecursion IsAddress addresses.now }
    ensures { OnOk result (out.new.items ≡ out.old.items ++ flat_map sized addresses.now) }
{
    'addresses: for address in addresses {
        push_sized(out, address.as_slice())?;
    }
    Ok(())
}

// Writes a count byte and so many addresses.
fn push_counted(out: &mut Vec<u8>, addresses: &Addresses) -> Result<(), NoMemory>
    requires { AreAddresses addresses.now }
    ensures { OnOk result (out.new.items ≡ out.old.items ++ addresses_text addresses.now) }
{
    let addresses = addresses.as_slice();
    out.push(addresses.len() as u8)?;
    push_addresses(out, addresses)?;
    Ok(())
}

// Writes the names of repositories one behind the other.
fn push_rids(out: &mut Vec<u8>, rids: &[Rid]) -> Result<(), NoMemory>
    ensures { OnOk result (out.new.items ≡ out.old.items ++ flat_map rid_text rids.now) }
{
    'rids: for rid in rids {
        out.extend_from_slice(&rid.0.0)?;
    }
    Ok(())
}

// Writes a remote.
fn push_remote(out: &mut Vec<u8>, remote: &(Nid, Oid)) -> Result<(), NoMemory>
    ensures { OnOk result (out.new.items ≡ out.old.items ++ pair_text remote.now) }
{
    out.extend_from_slice(&remote.0.0)?;
    out.extend_from_slice(&remote.1.0)?;
    Ok(())
}

// Writes remotes one behind the other.
fn push_remotes(out: &mut Vec<u8>, remotes: &[(Nid, Oid)]) -> Result<(), NoMemory>
    ensures { OnOk result (out.new.items ≡ out.old.items ++ flat_map pair_text remotes.now) }
{
    'remotes: for remote in remotes {
        push_remote(out, remote)?;
    }
    Ok(())
}

// Writes a count and so many zero bytes.
fn push_zeros(out: &mut Vec<u8>, zeros: u16) -> Result<(), NoMemory>
    ensures { OnOk result (out.new.items ≡ out.old.items ++ zeros_text zeros) }
{
    push_two(out, zeros)?;
    let size = out.len() + usize::from(zeros);
    out.resize(size, 0)?;
    Ok(())
}

// Writes what a node says of itself.
fn push_about(
    out: &mut Vec<u8>,
    features: u64,
    time: u64,
    alias: &[u8],
    addresses: &Addresses,
) -> Result<(), NoMemory>
    requires { IsAbout features time alias.now addresses.now }
    ensures { OnOk result
        (out.new.items ≡ out.old.items ++ about_text features time alias.now addresses.now) }
{
    push_two_eights(out, features, time)?;
    push_sized(out, alias)?;
    push_counted(out, addresses)?;
    Ok(())
}

// Writes which repositories a node has.
fn push_inventory(out: &mut Vec<u8>, rids: &Rids, time: u64) -> Result<(), NoMemory>
    requires { length rids.now ≤ 2973 }
    ensures { OnOk result (out.new.items ≡ out.old.items ++ inventory_text rids.now time) }
{
    let rids = rids.as_slice();
    push_two(out, rids.len() as u16)?;
    push_rids(out, rids)?;
    push_eight(out, time)
}

// Writes which signed refs of a repository a node has.
fn push_refs(out: &mut Vec<u8>, rid: &Rid, remotes: &Remotes, time: u64) -> Result<(), NoMemory>
    requires { length remotes.now ≤ 1024 }
    ensures { OnOk result (out.new.items ≡ out.old.items ++ refs_text rid.now remotes.now time) }
{
    let remotes = remotes.as_slice();
    out.extend_from_slice(&rid.0.0)?;
    push_two(out, remotes.len() as u16)?;
    push_remotes(out, remotes)?;
    push_eight(out, time)
}

// Writes what a node wants to be told of.
fn push_subscription(out: &mut Vec<u8>, filter: &Bytes, from: u64, to: u64) -> Result<(), NoMemory>
    requires { IsSubscription filter.now from to }
    ensures { OnOk result (out.new.items ≡ out.old.items ++ subscription_text filter.now from to) }
{
    let filter = filter.as_slice();
    push_two(out, filter.len() as u16)?;
    out.extend_from_slice(filter)?;
    push_two_eights(out, from, to)?;
    Ok(())
}

// Writes the fields of a message.
fn push_body(out: &mut Vec<u8>, message: &Message) -> Result<(), NoMemory>
    requires { IsMessage message.now }
    ensures { OnOk result (out.new.items ≡ out.old.items ++ body_of message.now) }
{
    match message {
        Message::Hello { node } => {
            out.extend_from_slice(&node.0)?;
            Ok(())
        }
        Message::Node {
            node,
            sig,
            features,
            time,
            alias,
            addresses,
        } => {
            push_signed(out, node, sig)?;
            push_about(out, *features, *time, alias.as_slice(), addresses)?;
            Ok(())
        }
        Message::Inventory {
            node,
            sig,
            rids,
            time,
        } => {
            push_signed(out, node, sig)?;
            push_inventory(out, rids, *time)
        }
        Message::Refs {
            node,
            sig,
            rid,
            remotes,
            time,
        } => {
            push_signed(out, node, sig)?;
            push_refs(out, rid, remotes, *time)
        }
        Message::Subscribe { filter, from, to } => push_subscription(out, filter, *from, *to),
        Message::Ping { pong, zeros } => {
            push_two(out, *pong)?;
            push_zeros(out, *zeros)
        }
        Message::Pong { zeros } => push_zeros(out, *zeros),
    }
}

/// The bytes of a message whose fields keep their limits. `NoMemory`: memory for them was refused.
pub fn write_message(alloc: Global, message: &Message) -> Result<Vec<u8>, NoMemory>
    requires { IsMessage message.now }
    ensures { IfOk result (λ bytes. bytes.items ≡ message_text message.now) }
{
    let mut out = Vec::new(alloc);
    push_two(&mut out, type_of(message))?;
    push_body(&mut out, message)?;
    Ok(out)
}
