//! Which keys stay.

ghost use Rattle.std.specs.Prelude.{◌≡◌, Bool};

/// A choice among keys. It answers the same whenever it is asked of a key.
pub trait Choice<K> {
    ghost kept: { Self → K → Bool };

    /// Whether the key stays.
    fn keeps(&self, key: &K) -> bool
        ensures { result ≡ kept self.now key.now };
}

/// A choice among keys with their values. It answers the same whenever it is asked of a key and a value.
pub trait EntryChoice<K, V> {
    ghost kept: { Self → K → V → Bool };

    /// Whether the key stays, with its value.
    fn keeps(&self, key: &K, value: &V) -> bool
        ensures { result ≡ kept self.now key.now value.now };
}
