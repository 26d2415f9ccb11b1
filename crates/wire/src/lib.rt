// Bytes to requests. Read list, then parser, then request.
#![tactic(auto, using(scan::proofs::Chain::exits))]

mod list;
mod parser;
mod request;

pub use request::{Compare, Parse, Request, read_request};
