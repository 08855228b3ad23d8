//! The command about a text by itself.
use crate::console::Console;
use crate::mistake::Mistake;
use rules::Cause;
use std::io::Write;
use text::{ReadFault, Refusal};
use word::{NotAWord, Word};

impl Console<'_> {
    /// What a text reads as.
    pub(crate) fn read(
        &mut self,
        name: Result<Word, NotAWord>,
        count: usize,
    ) -> anyhow::Result<()> {
        let bytes = match self.input.counted(count)? {
            Ok(bytes) => bytes,
            Err(mistake) => return self.mistaken(mistake),
        };
        let Ok(name) = name else {
            return self.refused(Refusal::bare(Cause::NotAWord));
        };
        match text::read(self.rt.alloc(), name, &bytes) {
            Ok(text) => {
                println!(self.rt; "forms {}", text.forms.len())?;
                let listing = text.listing(self.rt.alloc())?;
                self.rt.stdout().write_all(&listing)?;
                Ok(())
            }
            Err(ReadFault::Refused(refusal)) => self.refused(refusal),
            Err(ReadFault::Memory) => self.mistaken(Mistake::NoMemory),
        }
    }
}
