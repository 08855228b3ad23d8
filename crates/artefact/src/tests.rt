//! The artefacts of the rules' worked keys, read and written again.
use crate::{Module, ReadFault, WriteFault, read, write, write_front};
use std::test::Fail;

// A paper of one row that prints what the bank's macro makes of it.
const PAPER: &[u8] = b"require shift
bank 0
level kind name params rows
0 action - 0 2
op text home base number
prim print - - 1
number - - - 1
";

// The bank: a variable at level 1 and a macro that sets it.
const BANK: &[u8] = b"require shift
level kind name params rows
1 variable n 0 1
0 macro next 1 6
op text home base number
number - - - 0
do - - - 2
set n - - -
prim add - - 2
variable n bank 0 -
number - - - 1
variable n bank 0 -
";

// The module that bytes are the artefact of.
fn module_of(rt: &HostRuntime, bytes: &[u8]) -> Result<Module, Fail> {
    read(rt.alloc(), bytes).map_err(|_| Fail::new("no artefact"))
}

#[test]
fn written_as_it_was_read(rt: HostRuntime) -> Result<(), Fail> {
    let paper = module_of(&rt, PAPER)?;
    assert_eq!(rt; PAPER.len(), 121);
    // both sides of `==` have one type, so a `Vec` is read as a slice here
    assert!(rt; write(rt.alloc(), &paper)?.as_slice() == PAPER);
    let bank = module_of(&rt, BANK)?;
    assert!(rt; write(rt.alloc(), &bank)?.as_slice() == BANK);
    Ok(())
}

#[test]
fn written_in_front_or_not(rt: HostRuntime) -> Result<(), Fail> {
    let paper = module_of(&rt, PAPER)?;
    let mut room = [7u8; 122];
    assert_eq!(rt;
        write_front(rt.alloc(), &paper, &mut room[0..120]),
        Err(WriteFault::NoRoom)
    );
    assert_eq!(rt; write_front(rt.alloc(), &paper, &mut room), Ok(121));
    assert!(rt; &room[0..121] == PAPER);
    assert_eq!(rt; room[121], 7);
    Ok(())
}

#[test]
fn a_cut_artefact_is_none(rt: HostRuntime) {
    assert!(rt;
        matches!(
            read(rt.alloc(), &PAPER[0..120]),
            Err(ReadFault::NotAnArtefact)
        )
    );
}
