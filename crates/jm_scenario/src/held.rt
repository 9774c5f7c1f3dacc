ghost use Rattle.std.specs.Prelude.{◌≡◌};

/// A value that is read while other fields are not read yet. It is dropped by one call, so that a
/// function with several ways out does not drop the value, part by part, on each.
pub(crate) struct Held<T: Drop> {
    pub(crate) value: T,
}

impl<T: Drop> Drop for Held<T> {
    fn drop(self) {
        let Held { value: _value } = self;
    }
}

impl<T: Drop> Held<T> {
    /// The value, held.
    pub(crate) fn new(value: T) -> Held<T>
        ensures { result.value ≡ value }
    {
        Held { value }
    }

    /// The value, moved out.
    pub(crate) fn into_value(self) -> T
        ensures { result ≡ self.value }
    {
        let Held { value } = self;
        value
    }
}
