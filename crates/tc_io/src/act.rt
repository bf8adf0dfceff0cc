use tc_base::Blob;

/// One event of a script that `MemWire` plays.
#[derive(Drop)]
pub enum Act {
    /// A connection of this number opens.
    Opened(u32),
    /// These bytes come of a connection: 1 to 4096 of them.
    Read(u32, Blob),
    /// No more input comes of a connection.
    Ended(u32),
    /// Nothing is ready.
    Quiet,
}
