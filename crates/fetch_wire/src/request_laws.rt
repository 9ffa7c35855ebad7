// Laws of requests.
ghost use Rattle.std.specs.Prelude.{◌≡◌, ◌++◌, [], ℕ, List};
ghost use Rattle.hex.specs.Hex.{IsBytes};
ghost use Rattle.unit_reader.specs.Units.{Broken};
ghost use Rattle.fetch_wire.specs.Requests.{IsRequest, Requests, request_text};
ghost use Rattle.fetch_wire.specs.RequestReadings.{ReadsRequests, TellsRequests, requests_of};
ghost use Rattle.fetch_wire.specs.declared.request.Request.{Request};

/// What spells requests is read as these requests, whatever stands behind it. So what
/// `write_request` wrote is read back.
pub fn requests_are_read_back()
    ensures { (bytes : List ℕ) (requests : List Request) (rest : List ℕ)
        → Requests bytes requests rest → ReadsRequests bytes requests rest }
{}

/// What is read of any bytes is what they spell: the requests, with what stands of the next one; or
/// those before a broken one, which begins where they end.
pub fn what_is_read_of_requests_is_spelled()
    ensures { (bytes : List ℕ) → IsBytes bytes
        → TellsRequests bytes (requests_of bytes).items (requests_of bytes).place }
{}

/// No request's spelling begins another, and a request is spelled in one way.
pub fn no_request_begins_another()
    ensures { (a b : Request) (rest other : List ℕ) → IsRequest a → IsRequest b
        → request_text a ++ rest ≡ request_text b ++ other → (a ≡ b) × (rest ≡ other) }
{}

/// Bytes in which a request is broken begin no requests, whatever follows them.
pub fn what_is_broken_begins_no_requests()
    ensures { (bytes more : List ℕ) (place : ℕ) (requests : List Request)
        → (requests_of bytes).place ≡ Broken place → Requests (bytes ++ more) requests [] → ⊥ }
{}
