//! How far a task is, said on a terminal.

use std::io;
use std::io::Write;
use std::time::{Clock, Duration, Instant};

/// The bytes of a megabyte.
const MEGABYTE: u64 = 1_000_000;

/// Standard output, which says on standard error how much was written, once a second.
#[derive(Drop)]
pub struct Watched<'a, R> {
    rt: &'a R,
    written: u64,
    // When something was last said, or `None` if nothing is to be said.
    last: Option<Instant>,
}

impl<'a, R: Clock + Eprint> Watched<'a, R> {
    /// Begins to watch the output, after so many bytes were read. Says at once that they are many.
    /// Nothing is ever said unless `says`.
    pub fn new(rt: &'a R, says: bool, read: usize) -> Watched<'a, R> {
        let last = if says { Instant::now(rt).ok() } else { None };
        let megabytes = read as u64 / MEGABYTE;
        if last.is_some() && megabytes > 0 {
            let _ = eprint!(rt; "conthiral: {megabytes} MB read\x1b[K\r");
        }
        Watched {
            rt,
            written: 0,
            last,
        }
    }

    /// Says how much was written, if a second passed since something was said.
    fn say(&mut self) {
        let (Some(last), Ok(now)) = (self.last, Instant::now(self.rt)) else {
            return;
        };
        if now.duration_since(last) >= Duration::from_secs(1) {
            let megabytes = self.written / MEGABYTE;
            let _ = eprint!(self.rt; "conthiral: {megabytes} MB written\x1b[K\r");
            self.last = Some(now);
        }
    }
}

impl<R: Clock + Print + Eprint> Write for Watched<'_, R> {
    fn write(&mut self, buf: &[u8]) -> io::Result<usize> {
        let count = io::writer(self.rt).write(buf)?;
        self.written = self.written.saturating_add(count as u64);
        self.say();
        Ok(count)
    }

    /// Nothing that was said stays.
    fn flush(&mut self) -> io::Result<()> {
        io::writer(self.rt).flush()?;
        if self.last.is_some() {
            let _ = eprint!(self.rt; "\x1b[K");
        }
        Ok(())
    }
}
