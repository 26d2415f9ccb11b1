// Why the program ends before all is answered.
use std::alloc::AllocError;
use std::io;
use thiserror::Error;

#[derive(Debug, Drop, Error)]
pub enum Failure {
    #[error("--most-room wants a number of at most 64 bits")]
    NoNumber,
    #[error("there is no such option: see --help")]
    NoOption,
    // of a file, with its name made ready where it fails, so that want of memory for that is told there
    #[error("{about}{error}")]
    Unread { about: String, error: io::Error },
    #[error("{0}")]
    Unanswered(String),
    #[error(transparent)]
    Io(#[from] io::Error),
    #[error(transparent)]
    Memory(#[from(alloc)] AllocError),
}
