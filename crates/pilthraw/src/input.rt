//! Standard input, as lines and as counted bytes.
use crate::mistake::Mistake;
use std::alloc::Global;
use std::io;
use std::io::{BufRead, BufReader, Read, Stdin};

/// What a command is read from.
#[derive(Drop)]
pub(crate) struct Input {
    heap: Global,
    source: BufReader<Stdin>,
}

impl Input {
    pub(crate) fn new(rt: &HostRuntime) -> io::Result<Input> {
        let heap = rt.alloc();
        Ok(Input {
            heap,
            source: BufReader::new(heap, rt.stdin())?,
        })
    }

    /// The next line, without its line feed; nothing at the end of the input.
    pub(crate) fn line(&mut self) -> io::Result<Option<Vec<u8>>> {
        let mut line = Vec::new(self.heap);
        if self.source.read_until(b'\n', &mut line)? == 0 {
            return Ok(None);
        }
        if let Some(b'\n') = line.last() {
            let _ = line.pop();
        }
        Ok(Some(line))
    }

    /// So many bytes, which a line feed ends; a mistake where they are not all there, or where another byte stands in its place.
    pub(crate) fn counted(&mut self, count: usize) -> io::Result<Result<Vec<u8>, Mistake>> {
        let mut bytes = vec![in self.heap; 0u8; count]?;
        let mut end = [0u8];
        let whole = self.source.read_exact(&mut bytes).is_ok()
            && self.source.read_exact(&mut end).is_ok();
        if whole && end == [b'\n'] {
            Ok(Ok(bytes))
        } else {
            Ok(Err(Mistake::OtherCount))
        }
    }
}
