ghost use Rattle.lucy_host.specs.Host.{Serves};

use lucy_app::lucy;
use lucy_host::Host;
use lucy_tables::lucy_table;
use lucy_text::{MemShelf, MemSink, MemSource};
use lucy_worker::Gate;
use std::alloc::{AllocError, Global};
use std::thread::Threads;

/// How the calls of a source or a sink go: each moves at most so many bytes, and the calls with these numbers, from 1,
/// fail.
#[derive(Drop)]
pub(crate) struct Calls {
    pub most: usize,
    pub fails: Vec<u64>,
}

/// The text of a row to which a line that begins with a blank adds.
#[derive(Clone, Copy)]
pub(crate) enum Open {
    Nothing,
    File,
    Input,
}

/// One row: the program, the words, the files and the input that are handed in, and how the shelf and the streams behave.
#[derive(Drop)]
pub(crate) struct Row {
    /// Whether the words may ask for lookup tables.
    pub tables: bool,
    pub words: Vec<String>,
    /// The words of a second call, which has what the first one printed as a file; none where there is one call alone.
    pub second: Vec<String>,
    /// The names and the bytes of what the shelf holds.
    pub files: Vec<(String, Vec<u8>)>,
    /// The numbers, from 1, of the fetches that fail.
    pub fetches: Vec<u64>,
    pub input: Vec<u8>,
    pub reads: Calls,
    pub writes: Calls,
    /// Bytes that the output has room for.
    pub room: usize,
    pub tells: Calls,
    pub open: Open,
}

/// What a run leaves.
#[derive(Drop)]
pub(crate) struct End {
    pub status: u8,
    pub input: MemSource,
    pub out: MemSink,
    pub err: MemSink,
}

// Calls that never fail, of a few bytes each.
fn steady(alloc: Global) -> Calls {
    Calls {
        most: 7,
        fails: Vec::new(alloc),
    }
}

fn sink(alloc: Global, room: usize, calls: Calls) -> Result<MemSink, AllocError> {
    let room = Vec::with_capacity(alloc, room)?;
    Ok(MemSink::new(room, calls.most.max(1), calls.fails))
}

impl Row {
    /// No words, no files and no input, and calls that never fail.
    pub(crate) fn new(alloc: Global) -> Row {
        Row {
            tables: false,
            words: Vec::new(alloc),
            second: Vec::new(alloc),
            files: Vec::new(alloc),
            fetches: Vec::new(alloc),
            input: Vec::new(alloc),
            reads: steady(alloc),
            writes: steady(alloc),
            room: 8_192,
            tells: steady(alloc),
            open: Open::Nothing,
        }
    }

    /// The row of the second call: what the first one printed is the file `trace`.
    pub(crate) fn behind(self, alloc: Global, printed: &[u8]) -> Result<Row, AllocError> {
        let Row {
            tables,
            second,
            files,
            fetches,
            input,
            reads,
            writes,
            room,
            tells,
            ..
        } = self;
        let mut held = files;
        let mut text = Vec::with_capacity(alloc, printed.len())?;
        text.extend_from_slice(printed)?;
        held.push((format!(in alloc; "trace")?, text))?;
        Ok(Row {
            tables,
            words: second,
            second: Vec::new(alloc),
            files: held,
            fetches,
            input,
            reads,
            writes,
            room,
            tells,
            open: Open::Nothing,
        })
    }

    /// Runs the program on the row's words, with the operators of the host, unless it lends its own, and workers that come to the
    /// gate.
    pub(crate) fn run<R: Threads + Sync, F: Fn(u32, i64, i64) -> i64 + Sync, G: Gate + Sync>(
        self,
        rt: &R,
        alloc: Global,
        gate: &G,
        host: &Host<F>,
    ) -> Result<End, AllocError>
        requires { Serves F.pre F.post host.now }
    {
        let mut shelf = MemShelf::new(self.files, self.fetches);
        let mut input = MemSource::new(self.input, self.reads.most.max(1), self.reads.fails);
        let mut out = sink(alloc, self.room, self.writes)?;
        let mut err = sink(alloc, 256, self.tells)?;
        let status = if self.tables {
            lucy_table(
                rt,
                alloc,
                &self.words,
                &mut shelf,
                &mut input,
                &mut out,
                &mut err,
                gate,
            )
        } else {
            lucy(
                rt,
                alloc,
                &self.words,
                &mut shelf,
                &mut input,
                &mut out,
                &mut err,
                gate,
                host,
            )
        };
        Ok(End {
            status,
            input,
            out,
            err,
        })
    }
}
