// The line to gdb over standard input and output.

ghost use Rattle.std.specs.Prelude.{◌≡◌, ◌≤◌, length, IfOk, OnErr, OnOk};
ghost use Rattle.keepers.specs.Prelude.{Rose};

use gdb_line::{Line, LineFault};
use std::alloc::{AllocError, Global};
use std::io::{self, ErrorKind, Read, Stdin, Stdout, Write};
use std::sync::Arc;
use std::sync::atomic::{AtomicBool, Ordering};
use std::thread::{self, JoinHandle, Threads};

/// Standard input and output. It claims no content. While a move goes on, a thread waits for the next byte, which may be
/// Ctrl-C.
#[derive(Drop)]
pub struct StdLine<R: Threads + Drop> {
    rt: R,
    alloc: Global,
    input: Stdin,
    output: Stdout,
    // The input that such a thread reads. None: it has it.
    spare: Option<Stdin>,
    reader: Option<Reader>,
    faults: u64,
}

// A thread that waits for the next byte.
#[derive(Drop)]
struct Reader {
    handle: JoinHandle<(Stdin, Came)>,
    done: Arc<AtomicBool, Global>,
}

// What a thread read.
#[derive(Clone, Copy)]
enum Came {
    Byte(u8),
    End,
    Failed,
}

impl<R: Threads + Drop> StdLine<R> {
    /// A line over standard input and output. `spare` is standard input once more, for the thread.
    pub fn new(rt: R, alloc: Global, input: Stdin, spare: Stdin, output: Stdout) -> StdLine<R> {
        StdLine {
            rt,
            alloc,
            input,
            output,
            spare: Some(spare),
            reader: None,
            faults: 0,
        }
    }

    // Counts a fault.
    fn failed(&mut self) -> LineFault
        ensures rose { Rose self.old.faults self.new.faults }
        ensures later { self.old.faults ≤ self.new.faults }
    {
        self.faults = self.faults.saturating_add(1);
        LineFault::Failed
    }

    // Starts a thread that waits for the next byte. Without memory or a thread there is none.
    fn start(&mut self)
        ensures { self.new.faults ≡ self.old.faults }
    {
        let Ok((done, theirs)) = flags(self.alloc) else {
            return;
        };
        let Some(mut input) = self.spare.take() else {
            return;
        };
        let waiting = move || {
            let came = read_byte(&mut input);
            theirs.store(true, Ordering::SeqCst);
            (input, came)
        };
        if let Ok(handle) = thread::spawn(&self.rt, waiting) {
            self.reader = Some(Reader { handle, done });
        }
    }

    // Takes what a thread read, and waits for it.
    fn finish(&mut self, reader: Reader, room: &mut [u8]) -> Result<usize, LineFault>
        ensures count { IfOk result (λ n. n ≤ length room.new) }
        ensures quiet { OnOk result (self.new.faults ≡ self.old.faults) }
        ensures later { self.old.faults ≤ self.new.faults }
        ensures cause { OnErr result (Rose self.old.faults self.new.faults) }
    {
        let Reader { handle, .. } = reader;
        let (input, came) = handle.join(&self.rt);
        self.spare = Some(input);
        match (came, room.first_mut()) {
            (Came::Byte(byte), Some(first)) => {
                *first = byte;
                Ok(1)
            }
            (Came::Failed, _) => Err(self.failed()),
            _ => Ok(0),
        }
    }
}

impl<R: Threads + Drop> Line for StdLine<R> {
    ghost use Rattle.std.specs.Prelude.{None};

    ghost told = { λ _. None };

    ghost fault_count = { λ l. l.faults };

    fn receive(&mut self, room: &mut [u8]) -> Result<usize, LineFault> {
        if let Some(reader) = self.reader.take() {
            return self.finish(reader, room);
        }
        match read_some(&mut self.input, room) {
            Ok(count) => Ok(count),
            Err(_) => Err(self.failed()),
        }
    }

    fn look(&mut self, room: &mut [u8]) -> Result<usize, LineFault> {
        if room.is_empty() {
            return Ok(0);
        }
        match self.reader.take() {
            Some(reader) if reader.done.load(Ordering::SeqCst) => self.finish(reader, room),
            Some(reader) => {
                self.reader = Some(reader);
                Ok(0)
            }
            None => {
                self.start();
                Ok(0)
            }
        }
    }

    fn send(&mut self, piece: &[u8]) -> Result<(), LineFault> {
        match send_whole(&mut self.output, piece) {
            Ok(()) => Ok(()),
            Err(_) => Err(self.failed()),
        }
    }
}

// A flag that is false, for two threads.
fn flags(alloc: Global) -> Result<(Arc<AtomicBool, Global>, Arc<AtomicBool, Global>), AllocError> {
    let flag = Arc::new(alloc, AtomicBool::new(false))?;
    let other = Arc::try_clone(&flag)?;
    Ok((flag, other))
}

// Reads the next byte. It waits.
fn read_byte(input: &mut Stdin) -> Came {
    let mut room = [0; 1];
    match read_some(input, &mut room) {
        Ok(0) => Came::End,
        Ok(_) => Came::Byte(room[0]),
        Err(_) => Came::Failed,
    }
}

// Reads what comes, as much as there is room for. It waits, also where a signal breaks off the wait.
fn read_some<R: Read>(input: &mut R, room: &mut [u8]) -> io::Result<usize>
    ensures { IfOk result (λ n. n ≤ length room.new) }
{
    for _ in 0..u64::MAX {
        match input.read(room) {
            Ok(count) => return Ok(count),
            Err(error) => {
                if error.kind() != ErrorKind::Interrupted {
                    return Err(error);
                }
            }
        }
    }
    Err(io::Error::from(ErrorKind::Interrupted))
}

// Writes a piece, and flushes it.
fn send_whole<W: Write>(output: &mut W, piece: &[u8]) -> io::Result<()> {
    output.write_all(piece)?;
    output.flush()
}
