//! The replies that several commands share.
use crate::console::Console;
use crate::mistake::Mistake;
use rules::Cause;
use std::io::Write;
use store::NotTaken;
use text::Refusal;

impl Console<'_> {
    pub(crate) fn done(&self) -> anyhow::Result<()> {
        println!(self.rt; "done")?;
        Ok(())
    }

    /// What is wrong with a line, in words.
    pub(crate) fn mistaken(&self, mistake: Mistake) -> anyhow::Result<()> {
        println!(self.rt; "error: {mistake}")?;
        Ok(())
    }

    pub(crate) fn refused(&self, refusal: Refusal) -> anyhow::Result<()> {
        println!(self.rt; "{refusal}")?;
        Ok(())
    }

    /// Whether a change was taken.
    pub(crate) fn taken(&self, change: Result<(), NotTaken>) -> anyhow::Result<()> {
        match change {
            Ok(()) => self.done(),
            Err(NotTaken) => self.refused(Refusal::bare(Cause::NotTaken)),
        }
    }

    /// How many bytes, then the bytes and a line feed.
    pub(crate) fn answer(&self, bytes: &[u8]) -> anyhow::Result<()> {
        println!(self.rt; "answer {}", bytes.len())?;
        self.rt.stdout().write_all(bytes)?;
        println!(self.rt; "")?;
        Ok(())
    }
}
