// The lists in messages.
ghost use Rattle.std.specs.Prelude.{◌≡◌, ◌∷◌, ◌++◌, ◌≤◌, ◌↔◌, ℕ, List, IsTrue, length, IfOk};
ghost use Rattle.std.specs.Prelude.{IfSome, IfNone};
ghost use Rattle.rad_base.specs.declared.names.Rid.{Rid};
ghost use Rattle.rad_base.specs.Lists.{AreItems};
ghost use Rattle.rad_base.specs.Order.{IsAboveBy, rid_cmp};
ghost use Rattle.gossip_wire.specs.Fields.{AreAddresses, AreRising, IsAddress, IsRid};
ghost use Rattle.gossip_wire.specs.Fields.{addresses_text, rid_text, sized};

use crate::Addresses;
use crate::fields::address_front;
use rad_base::{Bytes, Items, NoMemory, Rid, Rids, oid_front};
use std::alloc::Global;

/// The most addresses of a node.
const MOST_ADDRESSES: u8 = 16;

// So many addresses, which are all of the bytes. None where the bytes are no such.
fn counted_addresses(alloc: Global, bytes: &[u8], count: u8) -> Result<Option<Addresses>, NoMemory>
    ensures found { IfOk result (λ found. IfSome found
        (AreItems IsAddress sized bytes.now count)) }
    ensures none { IfOk result (λ found. IfNone found ((addresses : List (List ℕ))
        → AreItems IsAddress sized bytes.now count addresses → ⊥)) }
{
    let mut addresses = Items::new(alloc);
    let mut rest = bytes;
    'addresses: for _ in 0..count {
        let Some((address, more)) = address_front(rest) else {
            return Ok(None);
        };
        addresses.push(Bytes::copy_of(alloc, address)?)?;
        rest = more;
    }
    if rest.is_empty() {
        Ok(Some(addresses))
    } else {
        Ok(None)
    }
}

/// The addresses that the bytes are. None where they are none.
pub(crate) fn addresses_in(alloc: Global, bytes: &[u8]) -> Result<Option<Addresses>, NoMemory>
    ensures found { IfOk result (λ found. IfSome found (λ addresses. AreAddresses addresses
        × (bytes.now ≡ addresses_text addresses))) }
    ensures none { IfOk result (λ found. IfNone found ((addresses : List (List ℕ))
        → AreAddresses addresses → bytes.now ≡ addresses_text addresses → ⊥)) }
{
    let Some((count, rest)) = bytes.split_first() else {
        return Ok(None);
    };
    if *count > MOST_ADDRESSES {
        return Ok(None);
    }
    match counted_addresses(alloc, rest, *count)? {
        None => Ok(None),
        Some(addresses) => Ok(Some(addresses)),
    }
}

// Whether a name is above those of the list.
fn is_above(rids: &[Rid], rid: &Rid) -> bool
    ensures { IsTrue result ↔ IsAboveBy (λ x. x) rid_cmp rids.now rid.now }
{
    match rids.last() {
        Some(last) => last.cmp(rid).is_lt(),
        None => true,
    }
}

// The name of a repository in the first 20 bytes.
fn rid_front(bytes: &[u8]) -> Option<(Rid, &[u8])>
    ensures found { IfSome result (λ x. IsRid x.0 × (bytes.now ≡ rid_text x.0 ++ x.1.now)) }
    ensures none { IfNone result ((rid : Rid) (rest : List ℕ)
        → IsRid rid → bytes.now ≡ rid_text rid ++ rest → ⊥) }
{
    let (oid, rest) = oid_front(bytes)?;
    Some((Rid(oid), rest))
}

/// So many names of repositories, strictly rising, which are all of the bytes. None where the bytes
/// are no such.
pub(crate) fn rids_in(alloc: Global, bytes: &[u8], count: u16) -> Result<Option<Rids>, NoMemory>
    ensures found { IfOk result (λ found. IfSome found (λ rids. AreRising rids
        × AreItems IsRid rid_text bytes.now count rids)) }
    ensures none { IfOk result (λ found. IfNone found ((rids : List Rid)
        → AreRising rids → AreItems IsRid rid_text bytes.now count rids → ⊥)) }
{
    let mut rids = Rids::new(alloc);
    let mut rest = bytes;
    'rids: for _ in 0..count {
        let Some((rid, more)) = rid_front(rest) else {
            return Ok(None);
        };
        if !is_above(rids.as_slice(), &rid) {
            return Ok(None);
        }
        rids.push(rid)?;
        rest = more;
    }
    if rest.is_empty() {
        Ok(Some(rids))
    } else {
        Ok(None)
    }
}
