// What a manifest says.

/// What the manifest of a snapshot says.
#[derive(Debug, Drop)]
pub struct Fields {
    /// The slot of the snapshot.
    pub slot: u64,

    /// The storages of its slots, by rising slot.
    pub storages: Vec<FieldStorage>,
}

/// The storage of a slot.
#[derive(Clone, Copy, Debug, PartialEq, Eq)]
pub struct FieldStorage {
    pub slot: u64,
    pub id: u64,

    /// How many bytes of its file are the storage's image.
    pub len: u64,
}
