//! The commands of a bare store, for a store of any type.
use crate::console::Console;
use crate::mistake::Mistake;
use store::{Key, Miss, Store};

impl Console<'_> {
    pub(crate) fn put<S: Store>(
        &mut self,
        store: &mut S,
        key: Result<Key, Mistake>,
        count: usize,
    ) -> anyhow::Result<()> {
        let bytes = self.input.counted(count)?;
        match (bytes, key) {
            (Ok(bytes), Ok(key)) => self.taken(store.put(key, &bytes)),
            (Err(mistake), _) | (Ok(_), Err(mistake)) => self.mistaken(mistake),
        }
    }

    pub(crate) fn tell_length(&self, length: Option<usize>) -> anyhow::Result<()> {
        match length {
            Some(n) => println!(self.rt; "length {n}")?,
            None => println!(self.rt; "nothing")?,
        }
        Ok(())
    }

    pub(crate) fn fetch<S: Store>(&self, store: &S, key: Key, buffer: usize) -> anyhow::Result<()> {
        let Ok(mut out) = vec![in self.rt.alloc(); 0u8; buffer] else {
            return self.mistaken(Mistake::NoBuffer);
        };
        match store.fetch(key, &mut out) {
            Ok(n) => {
                out.truncate(n);
                return self.answer(&out);
            }
            Err(Miss::Absent) => println!(self.rt; "nothing")?,
            Err(Miss::Short) => println!(self.rt; "short")?,
        }
        Ok(())
    }

    pub(crate) fn tell(&self, yes: bool) -> anyhow::Result<()> {
        if yes {
            println!(self.rt; "yes")?;
        } else {
            println!(self.rt; "no")?;
        }
        Ok(())
    }
}
