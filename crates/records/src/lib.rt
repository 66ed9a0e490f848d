// Records of a transcript: read from bytes and a position, and by the reader that keeps both.
#![tactic(auto)]

pub mod reader;
pub mod record;
