//! The file of a database.

use multiplex_tree::List;

/// The file of a bus's database, read but not judged yet.
#[derive(Debug, Drop)]
pub enum DatabaseFile {
    /// The bus names no database.
    Absent,
    /// The file has more bytes than a database may have.
    TooLong,
    Bytes { bytes: List<u8> },
}
