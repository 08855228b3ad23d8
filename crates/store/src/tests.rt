use super::*;
use std::process::Abort;
use std::test::Fail;
use word::Word;

/// The text whose name is one letter.
fn text(letter: u8) -> Result<Key, Fail> {
    let name = Word::try_from(&[letter][..]).map_err(|_| Fail::new("no word"))?;
    Ok(Key {
        name,
        kind: Kind::Text,
    })
}

/// What stands, where it is one byte.
fn byte_in<S: Store>(store: &S, key: Key) -> Option<u8> {
    let mut out = [0u8; 1];
    store.fetch(key, &mut out).ok().map(|_| out[0])
}

#[test]
fn kinds_have_names(rt: HostRuntime) -> Result<(), Fail> {
    assert_eq!(rt; "text".parse(), Ok(Kind::Text));
    assert_eq!(rt; "artefact".parse(), Ok(Kind::Artefact));
    assert_eq!(rt; "artefacts".parse::<Kind>(), Err(UnknownKind));
    Ok(())
}

#[test]
fn slots_fill_and_free(rt: HostRuntime) -> Result<(), Fail> {
    assert_eq!(rt; std::mem::size_of::<Slot>(), 8224);
    let mut memory = [Slot::new(); 2];
    let (a, b) = (text(b'a')?, text(b'b')?);
    let built = Key {
        kind: Kind::Artefact,
        ..a
    };
    let mut slots = Slots::new(&mut memory);
    assert!(rt; slots.put(a, &[7; 8192]).is_ok());
    assert!(rt; slots.put(a, &[7; 8193]).is_err());
    assert_eq!(rt; slots.length(a), Some(8192));
    assert!(rt; slots.put(built, &[]).is_ok());
    assert_eq!(rt; slots.length(built), Some(0));
    assert!(rt; !slots.takes(b, Change::Put(0)));
    assert!(rt; slots.put(b, &[1]).is_err());
    assert!(rt; slots.remove(b).is_ok());
    assert!(rt; slots.remove(built).is_ok());
    assert!(rt; !slots.takes(b, Change::Put(8193)));
    assert!(rt; slots.put(b, &[1]).is_ok());
    assert_eq!(rt; byte_in(&slots, b), Some(1));
    assert_eq!(rt; byte_in(&slots, a), None);
    let again = Slots::new(&mut memory);
    assert_eq!(rt; again.length(b), None);
    Ok(())
}

#[test]
fn drafts_hide_and_give_back(rt: HostRuntime) -> Result<(), Fail> {
    let mut memory = [Slot::new(); 1];
    let (a, b) = (text(b'a')?, text(b'b')?);
    let mut slots = Slots::new(&mut memory);
    assert!(rt; slots.put(a, &[1]).is_ok());
    let mut drafts = Drafts::new(slots);
    assert_eq!(rt; byte_in(&drafts, a), Some(1));
    assert!(rt; drafts.put(b, &[2; 1025]).is_err());
    assert!(rt; drafts.put(b, &[2; 1024]).is_ok());
    assert_eq!(rt; drafts.length(b), Some(1024));
    assert!(rt; drafts.remove(a).is_ok());
    assert_eq!(rt; drafts.length(a), None);
    assert!(rt; drafts.put(a, &[]).is_ok());
    assert_eq!(rt; drafts.length(a), Some(0));
    assert!(rt; drafts.remove(a).is_ok());
    let below = drafts.into_below();
    assert_eq!(rt; byte_in(&below, a), Some(1));
    Ok(())
}

/// Puts one byte under each letter from `a` to `last`.
fn put_letters<S: Store>(rt: &impl Abort, store: &mut S, last: u8) -> Result<(), Fail> {
    for letter in b'a'..=last {
        assert!(rt; store.put(text(letter)?, &[letter]).is_ok());
    }
    Ok(())
}

#[test]
fn rows_run_out_and_return(rt: HostRuntime) -> Result<(), Fail> {
    let mut memory = [Slot::new(); 1];
    let (h, i, z) = (text(b'h')?, text(b'i')?, text(b'z')?);
    let mut slots = Slots::new(&mut memory);
    assert!(rt; slots.put(z, &[1]).is_ok());
    let mut drafts = Drafts::new(Drafts::new(slots));
    put_letters(&rt, &mut drafts, b'h')?;
    assert!(rt; drafts.put(i, &[]).is_err());
    assert!(rt; drafts.put(h, &[9]).is_ok());
    assert!(rt; drafts.remove(i).is_ok());
    assert!(rt; !drafts.takes(z, Change::Remove));
    assert!(rt; drafts.remove(z).is_err());
    assert!(rt; drafts.remove(h).is_ok());
    assert!(rt; drafts.remove(z).is_ok());
    assert_eq!(rt; drafts.length(z), None);
    assert!(rt; !drafts.takes(i, Change::Put(0)));
    let below = drafts.into_below();
    assert_eq!(rt; below.length(h), None);
    assert_eq!(rt; byte_in(&below, z), Some(1));
    Ok(())
}

#[test]
fn copies_between_stores(rt: HostRuntime) -> Result<(), Fail> {
    let mut first = [Slot::new(); 1];
    let mut second = [Slot::new(); 1];
    let mut buffer = [0u8; 2];
    let (a, b) = (text(b'a')?, text(b'b')?);
    let mut from = Slots::new(&mut first);
    let mut to = Slots::new(&mut second);
    assert!(rt; from.put(a, &[1, 2]).is_ok());
    assert!(rt; copy_entry(&from, &mut to, a, &mut buffer[0..1]).is_err());
    assert!(rt; copy_entry(&from, &mut to, a, &mut buffer).is_ok());
    assert_eq!(rt; to.length(a), Some(2));
    let mut over = Drafts::new(to);
    assert!(rt; over.put(b, &[3]).is_ok());
    assert!(rt; copy_entry(&from, &mut over, b, &mut buffer).is_ok());
    assert_eq!(rt; over.length(b), None);
    let mut pile = Drafts::new(Drafts::new(from));
    assert!(rt; copy_entry(&over, &mut pile, b, &mut buffer).is_ok());
    assert!(rt; pile.put(b, &[4]).is_ok());
    assert!(rt; copy_entry(&pile, &mut over, b, &mut buffer).is_ok());
    assert_eq!(rt; byte_in(&over, b), Some(4));
    Ok(())
}
