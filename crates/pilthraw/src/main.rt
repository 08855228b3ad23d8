//! The program: a console over standard input and output.

#![tactic(auto)]

use console::Console;
use std::env;

mod command;
mod console;
mod input;
mod mistake;
mod reply;
mod stores;
mod texts;

const USAGE: &str = "usage: pilthraw console
reads commands from standard input, one a line, and answers each:
  read NAME COUNT        then COUNT bytes and a line feed: what a module's text reads as
  store slots N          makes a bare store of N places; also drafts slots N, drafts drafts slots N
  put NAME KIND COUNT    then COUNT bytes and a line feed; KIND is text or artefact
  erase NAME KIND
  length NAME KIND
  fetch NAME KIND BUFFER
  takes NAME KIND COUNT  or none in the place of COUNT, for a removal";

fn main(rt: HostRuntime) -> anyhow::Result<()> {
    let mut args = env::args(&rt)?;
    let _program = args.next();
    if args.next().is_some_and(|word| word.as_str() == "console") {
        Console::new(&rt)?.run()
    } else {
        println!(rt; "{USAGE}")?;
        Ok(())
    }
}
