ghost use Rattle.std.specs.Prelude.{◌≡◌, ◌-◌, ◌≤◌, length};
ghost use Rattle.stream_records.specs.Reader.{new_reader, fresh_reader, reader_without_runs};
ghost use Rattle.stream_records.specs.Reader.{Ready, Taking, Finding};

use crate::record::{NoRecord, Record, next_record};

// The bytes of a record that has not ended, and where in the stream it begins.
#[derive(Clone, Copy)]
pub struct Reader {
    // Bytes and their length as two fields: memory is fixed, with no heap, and `Ready` and `progress_of` speak of them.
    pub kept: [u8; 11],
    pub length: usize,
    pub offset: u64,
    // An unknown kind was met, at that offset: a flag, since `Progress` has it.
    pub stopped: bool,
    // Run records are served: a flag, since `Progress` has it.
    pub runs: bool,
}

// The first record that ended in a piece, if one did, and the place after it.
#[derive(Clone, Copy)]
pub struct Found {
    pub whole: Option<Record>,
    pub reader: Reader,
    pub at: usize,
}

impl Reader {
    fn new(runs: bool) -> Reader
        ensures { result ≡ new_reader runs }
    {
        Reader {
            kept: [0; 11],
            length: 0,
            offset: 0,
            stopped: false,
            runs,
        }
    }

    pub fn fresh() -> Reader
        ensures { result ≡ fresh_reader }
    {
        Reader::new(true)
    }

    // A run record is bad, whole or cut.
    pub fn without_runs() -> Reader
        ensures { result ≡ reader_without_runs }
    {
        Reader::new(false)
    }

    // Takes a byte, and gives the record that ends with it, if one does.
    fn take(&mut self, byte: u8) -> Option<Record>
        requires { Ready self.old 1 }
        ensures { Taking self.old byte result self.new }
    {
        if self.stopped {
            return None;
        }
        let at = self.length;
        let end = at + 1;
        self.kept[at] = byte;
        match next_record(self.runs, &self.kept[..end], 0) {
            Ok((record, next)) => {
                self.length = 0;
                self.offset += next as u64;
                Some(record)
            }
            Err(NoRecord::Cut) => {
                self.length = end;
                None
            }
            Err(NoRecord::Unknown) => {
                self.stopped = true;
                None
            }
            Err(NoRecord::End) => None,
        }
    }

    // Takes the bytes of a piece from a place on, up to the end of a record or of the piece.
    pub fn find(mut self, piece: &[u8], from: usize) -> Found
        requires { Ready self (length piece.now - from) }
        ensures finding { Finding self piece.now from result }
        ensures onward { from ≤ result.at }
    {
        for i in from..piece.len() {
            if let Some(record) = self.take(piece[i]) {
                return Found {
                    whole: Some(record),
                    reader: self,
                    at: i + 1,
                };
            }
        }
        Found {
            whole: None,
            reader: self,
            at: from.max(piece.len()),
        }
    }
}
