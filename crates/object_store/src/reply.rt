// The reply to a request on what a repository of a store has.
ghost use Rattle.std.specs.Prelude.{◌≡◌, ◌≤◌, IfOk, length};
ghost use Rattle.fetch_serve.specs.Replies.{refusal_text, rid_of};
ghost use Rattle.repo_slice.specs.Slices.{objects_of, state_of};
ghost use Rattle.object_store.specs.Installs.{HasFew};
ghost use Rattle.object_store.specs.Replied.{IsGoodWith, IsReplyOf, IsReplyOn, asked_in};

use crate::repository::Repository;
use fetch_serve::{Shown, answer};
use fetch_wire::Request;
use keyring::Keyring;
use rad_base::{Nid, NoMemory, Rid};
use repo_slice::Slice;
use std::alloc::Global;
use std::collections::BTreeMap;

// The repository that is asked for, if one is.
fn rid_asked(request: &Request) -> Option<Rid>
    ensures { result ≡ rid_of request.now }
{
    match request {
        Request::Begin(rid, _) => Some(*rid),
        Request::Sigs(rid, _, _) => Some(*rid),
        Request::Tips(rid, _, _) => Some(*rid),
        Request::Done => None,
    }
}

// The reply where nothing is shown.
fn reply_on_nothing(
    alloc: Global,
    keyring: &Keyring,
    request: &Request,
    asker: &Nid,
) -> Result<Vec<u8>, NoMemory>
    ensures { IfOk result (λ bytes. bytes.items ≡ refusal_text 1) }
{
    match answer::<&Slice>(alloc, None, keyring, request, asker) {
        Ok(bytes) => Ok(bytes),
        Err(_) => Err(NoMemory),
    }
}

// The reply on a slice.
fn reply_on(
    alloc: Global,
    slice: &Slice,
    keyring: &Keyring,
    request: &Request,
    asker: &Nid,
) -> Result<Vec<u8>, NoMemory>
    requires { length (state_of slice.now).remotes ≤ 1024 }
    ensures { IfOk result (λ bytes. IsGoodWith (objects_of slice.now) (state_of slice.now).id
        (state_of slice.now).remotes keyring.now request.now
        → IsReplyOn (objects_of slice.now) (state_of slice.now) keyring.now request.now asker.now
        bytes.items) }
{
    let Some(id) = slice.id() else {
        return reply_on_nothing(alloc, keyring, request, asker);
    };
    let mut objects = slice;
    let shown = Shown {
        objects: &mut objects,
        id,
        remotes: slice.remotes(),
    };
    match answer(alloc, Some(shown), keyring, request, asker) {
        Ok(bytes) => Ok(bytes),
        Err(_) => Err(NoMemory),
    }
}

/// The reply on the repository that is asked for, or on nothing.
pub(crate) fn reply_at(
    alloc: Global,
    all: &BTreeMap<Rid, Repository>,
    keyring: &Keyring,
    request: &Request,
    asker: &Nid,
) -> Result<Vec<u8>, NoMemory>
    requires { HasFew (asked_in all.now request.now) }
    ensures { IfOk result (λ bytes.
        IsReplyOf (asked_in all.now request.now) keyring.now request.now asker.now bytes.items) }
{
    let Some(rid) = rid_asked(request) else {
        return reply_on_nothing(alloc, keyring, request, asker);
    };
    match all.get(&rid) {
        None => reply_on_nothing(alloc, keyring, request, asker),
        Some(repository) => reply_on(alloc, &repository.slice, keyring, request, asker),
    }
}
