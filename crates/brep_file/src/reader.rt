//! Reads a file token by token.

mod file_bytes;
mod heading;
mod part;
mod pull;
mod record;
mod records;
mod root;
mod sections;
mod state;
mod uses;

pub use file_bytes::read_file;
