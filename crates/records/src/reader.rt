// The transcript reader: the caller's bytes and its own position, thin over the reading of record.rt.
ghost use Rattle.std.specs.Prelude.{◌≡◌};
ghost use Rattle.model.specs.Transcripts.{read_record};

use crate::record::read_record;
use model::Reading;

#[derive(Clone, Copy, Drop)]
pub struct Reader<'a> {
    pub bytes: &'a [u8],
    pub at: usize,
}

impl<'a> Reader<'a> {
    pub fn new(bytes: &'a [u8]) -> Reader<'a>
        ensures { result ≡ record { bytes = bytes.entry; at = 0 } }
    {
        Reader { bytes, at: 0 }
    }

    // What stands at the reader's position.
    pub fn next(self) -> Reading
        ensures { result ≡ read_record self.entry.bytes.now self.entry.at }
    {
        read_record(self.bytes, self.at)
    }

    // The reader of the same bytes at another position, as that behind a record.
    pub fn advanced(self, at: usize) -> Reader<'a>
        ensures { result ≡ record { bytes = self.entry.bytes; at = at } }
    {
        Reader {
            bytes: self.bytes,
            at,
        }
    }
}

// The reading through a reader, for callers that have bytes and a position.
pub fn read_at(bytes: &[u8], at: usize) -> Reading
    ensures { result ≡ read_record bytes.now at }
{
    Reader::new(bytes).advanced(at).next()
}
