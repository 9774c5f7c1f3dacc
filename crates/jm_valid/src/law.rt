ghost use Rattle.jm_valid.specs.Stores.{ChangedIsValid, KeptIsValid};

/// The law of valid files, proved; the function itself does nothing.
///
/// Take any state each of whose rows holds a message that its queue or its subscription may hold, and any database that
/// holds what is stored of it, each of whose rows by itself is one of a store's. It is a file that may be loaded.
pub fn law_valid()
    ensures { KeptIsValid }
{}

/// The law of what a stop leaves, proved; the function itself does nothing.
///
/// Take a file that may be loaded and holds what is stored of a state, and changes that lead to another state each of whose
/// rows holds a message that its queue or its subscription may hold. What a stop of their write leaves is what it could leave
/// before, or a store's database that has all of them, and that is a file that may be loaded, of the same opening.
pub fn law_changed_valid()
    ensures { ChangedIsValid }
{}
