// The files and streams of the system. They tell nothing of their bytes.
ghost use Rattle.std.specs.Prelude.{None};
ghost use Rattle.rw_outside.specs.MemSink.{silent_state};

use crate::host::Host;
use crate::sink::{Failed, Sink};
use std::io::{Read, Write};
use std::rt::Files;

/// The files of the system.
#[derive(Drop)]
pub struct FileHost<R: Files + Drop> {
    rt: R,
    current: Option<R::File>,
    faults: u64,
}

impl<R: Files + Drop> FileHost<R> {
    pub fn new(rt: R) -> Self {
        FileHost {
            rt,
            current: None,
            faults: 0,
        }
    }
}

impl<R: Files + Drop> Host for FileHost<R> {
    ghost file = { λ h n. None };

    ghost rest = { λ h. None };

    ghost is_current = { λ h n. Unit {0} };

    ghost faults = { λ h n. h.faults };

    fn start(&mut self, name: &str) -> Result<(), Failed> {
        let Ok(file) = std::fs::open(&self.rt, name) else {
            self.faults = self.faults.saturating_add(1);
            return Err(Failed);
        };
        self.current = Some(file);
        Ok(())
    }

    fn take(&mut self, buf: &mut [u8]) -> Result<usize, Failed> {
        let Some(file) = &mut self.current else {
            return Ok(0);
        };
        let Ok(count) = file.read(buf) else {
            self.faults = self.faults.saturating_add(1);
            return Err(Failed);
        };
        Ok(count)
    }
}

/// A stream of the system.
#[derive(Drop)]
pub struct StreamSink<W: Write + Drop> {
    stream: W,
    faults: u64,
}

impl<W: Write + Drop> StreamSink<W> {
    pub fn new(stream: W) -> Self {
        StreamSink { stream, faults: 0 }
    }
}

impl<W: Write + Drop> Sink for StreamSink<W> {
    ghost state = { λ s. silent_state s.faults };

    fn put(&mut self, piece: &[u8]) -> Result<usize, Failed> {
        match self.stream.write(piece) {
            Ok(count) if count > 0 || piece.is_empty() => Ok(count),
            _ => {
                self.faults = self.faults.saturating_add(1);
                Err(Failed)
            }
        }
    }
}
