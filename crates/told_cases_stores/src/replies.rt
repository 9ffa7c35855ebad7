// Replies of stores to requests.
ghost use Rattle.object_store.specs.Stores.{StandsForSome};

use fetch_wire::{Request, RequestReader};
use object_store::Store;
use rad_base::Nid;
use rad_outside::MemDisk;
use std::alloc::Global;
use told_rows::texts::Line;

/// The one request that bytes are, in pieces of a byte. None: they are none, or memory was refused.
pub fn request_of(alloc: Global, bytes: &[u8]) -> Option<Request> {
    let mut reader = RequestReader::new(alloc);
    let mut last = None;
    for piece in bytes.chunks(1) {
        last = reader.feed(alloc, piece).ok()?.pop();
    }
    last
}

/// The reply of a store, in digits. None: memory was refused.
pub fn reply(
    alloc: Global,
    mut store: Store<MemDisk>,
    request: &Request,
    asker: &Nid,
) -> Option<String>
    requires { StandsForSome store }
{
    let bytes = store.reply(alloc, request, asker, 1).ok()?;
    let mut words = Line::new(alloc);
    words.bytes(alloc, &bytes)?;
    Some(words.into_string())
}
