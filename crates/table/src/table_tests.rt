//! The table at its two kinds of key.
ghost use Rattle.std.specs.Prelude.{◌≡◌, IfOk, Some, None};
ghost use Rattle.table.specs.declared.table_tests.Binding.TheVariants.{Procedure};
ghost use Rattle.text.specs.declared.data.Value.TheVariants.{Number};

use crate::{BoundKey, Entry, Full, KeyTable, VariableKey};
use text::Value;
use word::{Home, Word};

#[derive(Clone, Copy, PartialEq, Eq, Debug)]
pub enum Binding {
    Procedure,
    Macro,
}

fn bound(word: Word, level: u8) -> BoundKey
    ensures { (result.word ≡ word) × (result.level ≡ level) }
{
    BoundKey { word, level }
}

// A name is bound at two levels, and is found again at the first.
fn bind_twice(
    word: Word,
    entries: &mut [Option<Entry<BoundKey, Binding>>],
) -> Result<Option<Binding>, Full>
    ensures { IfOk result (λ b. b ≡ Some Procedure) }
{
    let mut table = KeyTable::new(entries);
    table.set(BoundKey { word, level: 0 }, Binding::Procedure)?;
    table.set(BoundKey { word, level: 1 }, Binding::Macro)?;
    Ok(table.get(&BoundKey { word, level: 0 }))
}

fn variable(word: Word, base: u8) -> VariableKey
    ensures { (result.name ≡ word) × (result.instance.«module» ≡ word) × (result.instance.base ≡ base) × (result.level ≡ 0) }
{
    VariableKey {
        name: word,
        instance: Home { module: word, base },
        level: 0,
    }
}

// A variable is set twice, and of two instances only one has it.
fn set_twice(
    word: Word,
    entries: &mut [Option<Entry<VariableKey, Value>>],
) -> Result<(Option<Value>, Option<Value>), Full>
    ensures { IfOk result (λ p. (p.1 ≡ None)) }
{
    let mut table = KeyTable::new(entries);
    table.set(variable(word, 0), Value::Number(1))?;
    table.set(variable(word, 0), Value::Number(2))?;
    Ok((table.get(&variable(word, 0)), table.get(&variable(word, 1))))
}

#[test]
fn bindings(rt: HostRuntime) {
    let mut entries = [None; 2];
    assert!(rt;
        matches!(
            bind_twice(Word::quote(), &mut entries),
            Ok(Some(Binding::Procedure))
        )
    );
    assert!(rt; matches!(bind_twice(Word::quote(), &mut entries[0..1]), Err(Full)));
}

#[test]
fn variables(rt: HostRuntime) {
    let mut entries = [None; 1];
    assert!(rt;
        matches!(
            set_twice(Word::quote(), &mut entries),
            Ok((Some(Value::Number(2)), None))
        )
    );
    assert!(rt; matches!(set_twice(Word::quote(), &mut entries[0..0]), Err(Full)));
}

// A key that stands can be set in a full table, and a refusal leaves what stands.
#[test]
fn full(rt: HostRuntime) {
    let mut entries = [Some(Entry {
        key: bound(Word::quote(), 7),
        value: Binding::Macro,
    }); 1];
    let mut table = KeyTable::new(&mut entries);
    assert!(rt; table.len() == 0);
    assert!(rt; table.get(&bound(Word::quote(), 7)).is_none());
    assert!(rt; table.set(bound(Word::quote(), 0), Binding::Macro).is_ok());
    assert!(rt; table.set(bound(Word::quote(), 1), Binding::Macro).is_err());
    assert!(rt;
        table
            .set(bound(Word::quote(), 0), Binding::Procedure)
            .is_ok()
    );
    assert!(rt; table.len() == 1);
    assert!(rt;
        matches!(
            table.get(&bound(Word::quote(), 0)),
            Some(Binding::Procedure)
        )
    );
    assert!(rt; table.get(&bound(Word::quote(), 1)).is_none());
}
