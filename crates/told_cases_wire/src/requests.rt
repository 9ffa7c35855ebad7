// Requests in pieces.
use fetch_wire::{Request, RequestFault, RequestReader, write_request};
use std::alloc::Global;
use told_rows::pieces::{Agreed, ways};
use told_rows::rows::Row;
use told_rows::texts::{Line, text};
use told_rows::words::bytes_of;

/// The table of requests.
#[derive(Clone, Copy)]
pub struct Requests;

// What a reader made of pieces: the words of the requests, their bytes written again, and where
// one is broken.
#[derive(Drop)]
struct Heard {
    words: Line,
    written: Vec<u8>,
    broken: Option<u64>,
}

// The word of a request.
fn word_of(request: &Request) -> &'static str {
    match request {
        Request::Begin(_, _) => "begin",
        Request::Sigs(_, _, _) => "sigs",
        Request::Tips(_, _, _) => "tips",
        Request::Done => "done",
    }
}

// The bytes of a request that is within its limits.
fn spelled(alloc: Global, request: &Request) -> Option<Vec<u8>> {
    match request {
        Request::Begin(_, haves) if haves.as_slice().len() > 2048 => None,
        Request::Sigs(_, haves, _) if haves.as_slice().len() > 2048 => None,
        Request::Sigs(_, _, nodes) if nodes.as_slice().len() > 1024 => None,
        Request::Tips(_, haves, _) if haves.as_slice().len() > 2048 => None,
        Request::Tips(_, _, nodes) if nodes.as_slice().len() > 1024 => None,
        _ => write_request(alloc, request).ok(),
    }
}

impl Heard {
    // No request.
    fn new(alloc: Global) -> Self {
        Heard {
            words: Line::new(alloc),
            written: Vec::new(alloc),
            broken: None,
        }
    }

    // Adds requests.
    fn add(&mut self, alloc: Global, requests: &[Request]) -> Option<()> {
        for request in requests {
            self.words.word(word_of(request))?;
            self.written
                .extend_from_slice(&spelled(alloc, request)?)
                .ok()?;
        }
        Some(())
    }

    // Reads a piece, unless a request is broken.
    fn feed(&mut self, alloc: Global, reader: &mut RequestReader, piece: &[u8]) -> Option<()> {
        if self.broken.is_some() {
            return Some(());
        }
        match reader.feed(alloc, piece) {
            Ok(requests) => self.add(alloc, &requests),
            Err(RequestFault::Bad(place)) => {
                self.add(alloc, reader.before())?;
                self.broken = Some(place);
                Some(())
            }
            Err(RequestFault::NoMemory) => None,
        }
    }
}

// How many bytes show that a request is broken.
fn shown(alloc: Global, bytes: &[u8]) -> Option<u64> {
    let mut reader = RequestReader::new(alloc);
    let mut count: u64 = 0;
    for piece in bytes.chunks(1) {
        count = count.saturating_add(1);
        if reader.feed(alloc, piece).is_err() {
            return Some(count);
        }
    }
    None
}

// What pieces are read as. The requests are spelled as the bytes begin.
fn read(alloc: Global, pieces: &[&[u8]], bytes: &[u8]) -> Option<String> {
    let mut reader = RequestReader::new(alloc);
    let mut heard = Heard::new(alloc);
    for piece in pieces {
        heard.feed(alloc, &mut reader, piece)?;
    }
    if !bytes.starts_with(&heard.written) {
        return text(alloc, "written otherwise");
    }
    let words = heard.words.into_string();
    match heard.broken {
        None => format!(in alloc; "{words} | none").ok(),
        Some(place) => {
            let shown = shown(alloc, bytes)?;
            format!(in alloc; "{words} | bad {place} {shown}").ok()
        }
    }
}

impl Row for Requests {
    // The words of the requests, and which is broken, however they are cut.
    fn answer(&self, alloc: Global, asked: &str) -> Option<String> {
        let bytes = bytes_of(alloc, asked)?;
        let mut agreed = Agreed::new();
        for pieces in &ways(alloc, &bytes)? {
            agreed.add(read(alloc, pieces, &bytes)?);
        }
        agreed.text(alloc)
    }
}
