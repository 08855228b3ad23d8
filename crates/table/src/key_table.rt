//! A table from keys to values, over a slice that the caller lends.
ghost use Rattle.std.specs.Prelude.{◌≡◌, ◌<◌, length, position, IfSome, MatchResult};
ghost use Rattle.std.specs.Option.{is_none};
ghost use Rattle.table.specs.Entries.{stands, place};
ghost use Rattle.table.specs.Maps.{mapping, size, Empty, Put, Refused};

/// A key that stands with its value.
#[derive(Clone, Copy, PartialEq, Eq, Debug)]
pub struct Entry<K, V> {
    pub key: K,
    pub value: V,
}

/// There is no room for one more key.
#[derive(Clone, Copy, PartialEq, Eq, Debug)]
pub struct Full;

/// A map from keys to values, over places that the caller lends: each is blank, or a key stands there.
#[derive(Drop)]
pub struct KeyTable<'a, K, V> {
    entries: &'a mut [Option<Entry<K, V>>],
}

// The first place where nothing stands.
fn first_none<K, V>(entries: &[Option<Entry<K, V>>]) -> Option<usize>
    ensures value { result ≡ position is_none entries.now }
    ensures within { IfSome result (λ i. i < length entries.now) }
{
    entries.iter().position(|entry| entry.is_none())
}

// Whether the key stands there.
fn stands<K: Eq, V>(entry: &Option<Entry<K, V>>, key: &K) -> bool
    ensures { result ≡ stands K.PartialEq.eq key.now entry.now }
{
    entry.as_ref().is_some_and(|held| held.key == *key)
}

impl<'a, K: Eq + Copy, V: Copy> KeyTable<'a, K, V> {
    /// A table in which no key stands. What the slice held is gone.
    pub fn new(entries: &'a mut [Option<Entry<K, V>>]) -> Self
        ensures { Empty K.PartialEq.eq (length entries.old) result }
    {
        entries.fill(None);
        KeyTable { entries }
    }

    /// The value that a key stands with.
    pub fn get(&self, key: &K) -> Option<V>
        ensures { result ≡ mapping K.PartialEq.eq self.now key.now }
    {
        let at = self.find_key(key)?;
        Some(self.entries[at]?.value)
    }

    /// How many keys stand.
    pub fn len(&self) -> usize
        ensures { result ≡ size self.now }
    {
        self.entries.iter().filter(|entry| entry.is_some()).count()
    }

    // Where the key stands.
    fn find_key(&self, key: &K) -> Option<usize>
        ensures value { result ≡ position (stands K.PartialEq.eq key.now) self.now.entries.now }
        ensures within { IfSome result (λ i. i < length self.now.entries.now) }
    {
        self.entries.iter().position(|entry| stands(entry, key))
    }

    // Where a value for the key is to be written.
    fn place(&self, key: &K) -> Option<usize>
        ensures value { result ≡ place K.PartialEq.eq self.now.entries.now key.now }
        ensures within { IfSome result (λ i. i < length self.now.entries.now) }
    {
        let entries: &[Option<Entry<K, V>>] = self.entries;
        self.find_key(key).or_else(
            || -> Option<usize>
                ensures value { result ≡ position is_none entries.entry.now }
                ensures within { IfSome result (λ i. i < length entries.entry.now) }
            { first_none(entries) },
        )
    }

    /// Lets the key stand with the value, in the place of the value that it stood with. Where it did not stand and there
    /// is no room, nothing changes.
    pub fn set(&mut self, key: K, value: V) -> Result<(), Full>
        ensures cases { MatchResult result (λ _. Put K.PartialEq.eq self.old key value self.new) (λ _. Refused K.PartialEq.eq self.old key self.new) }
        ensures named { self.new.entries.ghost_name ≡ self.old.entries.ghost_name }
    {
        let at = self.place(&key).ok_or(Full)?;
        self.entries[at] = Some(Entry { key, value });
        Ok(())
    }
}
