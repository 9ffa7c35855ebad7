// Reading requests from pieces of any length.
ghost use Rattle.std.specs.Prelude.{◌≡◌, ℕ, List, [], Err, IfSome};
ghost use Rattle.fetch_wire.specs.RequestReaders.{FeedsRequests, HasReadRequests, request_fault, request_refused, requests_before};
ghost use Rattle.fetch_wire.specs.declared.request.Request.{Request as Whole};

use crate::request_units::RequestUnits;
use crate::{Request, RequestFault};
use std::alloc::Global;
use unit_reader::{PieceReader, Stop};

/// Reads requests, one behind the other, from bytes that come in pieces.
#[derive(Drop)]
pub struct RequestReader {
    reader: PieceReader<RequestUnits>,
}

// The same fault in the words of requests.
fn fault_in(stop: Stop<u64>) -> RequestFault
    ensures { result ≡ request_fault stop }
{
    match stop {
        Stop::Broken(place) => RequestFault::Bad(place),
        Stop::NoMemory => RequestFault::NoMemory,
    }
}

impl RequestReader {
    /// A reader at the first byte of the first request. It takes no memory.
    pub fn new(alloc: Global) -> Self
        ensures { HasReadRequests [] [] result }
    {
        RequestReader {
            reader: PieceReader::new(alloc, RequestUnits::new(alloc)),
        }
    }

    /// Reads a piece, and answers the requests that became whole. `Bad` says where the request
    /// begins that is broken, as soon as its first byte, a count or an order is wrong; `NoMemory`
    /// that memory was refused. After either the answer stays the same, whatever is fed.
    pub fn feed(&mut self, alloc: Global, piece: &[u8]) -> Result<Vec<Request>, RequestFault>
        ensures stopped { IfSome (request_refused self.old)
            (λ fault. (result ≡ Err fault) × (self.new ≡ self.old)) }
        ensures fed { (fed : List ℕ) (requests : List Whole)
            → HasReadRequests fed requests self.old
            → FeedsRequests fed requests piece.now self.new result }
    {
        match self.reader.feed(alloc, piece) {
            Ok(fed) => Ok(fed.items),
            Err(stop) => Err(fault_in(stop)),
        }
    }

    /// The requests that became whole in the refused piece before the break. It takes no memory.
    pub fn before(&self) -> &[Request]
        ensures { result.now ≡ requests_before self.now }
    {
        self.reader.before()
    }
}
