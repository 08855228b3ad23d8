//! The console: each line is a command, and has its reply.
use crate::command::{Command, Pile, Plan};
use crate::input::Input;
use crate::mistake::Mistake;
use store::{Drafts, Slot, Slots, Store};

/// Where commands are read from, and where they are answered.
#[derive(Drop)]
pub(crate) struct Console<'a> {
    pub(crate) rt: &'a HostRuntime,
    pub(crate) input: Input,
}

impl<'a> Console<'a> {
    pub(crate) fn new(rt: &'a HostRuntime) -> anyhow::Result<Console<'a>> {
        Ok(Console {
            rt,
            input: Input::new(rt)?,
        })
    }

    /// Answers commands until the input ends. At first there is a store with no places.
    pub(crate) fn run(&mut self) -> anyhow::Result<()> {
        let mut next = self.serve(&mut Slots::new(&mut []))?;
        // The input may never end, every loop is proved to, and the repository allows no handle to wait: this one ends
        // after more stores than any input asks for.
        for _ in 0..u64::MAX {
            let Some(plan) = next else {
                return Ok(());
            };
            next = self.make_and_serve(plan)?;
        }
        Ok(())
    }

    // Makes a store, and answers commands with it.
    fn make_and_serve(&mut self, plan: Plan) -> anyhow::Result<Option<Plan>> {
        let Ok(mut memory) = vec![in self.rt.alloc(); Slot::new(); plan.places] else {
            self.mistaken(Mistake::NoPlaces)?;
            return self.serve(&mut Slots::new(&mut []));
        };
        self.done()?;
        let slots = Slots::new(&mut memory);
        match plan.pile {
            Pile::Slots => {
                let mut store = slots;
                self.serve(&mut store)
            }
            Pile::Drafts => self.serve(&mut Drafts::new(slots)),
            Pile::DraftsOverDrafts => self.serve(&mut Drafts::new(Drafts::new(slots))),
        }
    }

    // Answers commands with one store, until a line asks for another or the input ends.
    fn serve<S: Store>(&mut self, store: &mut S) -> anyhow::Result<Option<Plan>> {
        // As in `run`: more lines than any input has.
        for _ in 0..u64::MAX {
            let Some(line) = self.input.line()? else {
                return Ok(None);
            };
            match Command::try_from(&line[..]) {
                Ok(Command::Make(plan)) => return Ok(Some(plan)),
                Ok(command) => self.obey(store, command)?,
                Err(mistake) => self.mistaken(mistake)?,
            }
        }
        Ok(None)
    }

    // The reply to a command that keeps the store.
    fn obey<S: Store>(&mut self, store: &mut S, command: Command) -> anyhow::Result<()> {
        match command {
            Command::Read { name, count } => self.read(name, count),
            Command::Put { key, count } => self.put(store, key, count),
            Command::Erase(key) => self.taken(store.remove(key)),
            Command::Length(key) => self.tell_length(store.length(key)),
            Command::Fetch { key, buffer } => self.fetch(store, key, buffer),
            Command::Takes { key, change } => self.tell(store.takes(key, change)),
            Command::Make(_) => Ok(()),
        }
    }
}
