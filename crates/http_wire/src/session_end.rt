use weed_base::FileName;

/// How a session over one connection ended.
#[derive(Debug, Drop)]
pub enum SessionEnd {
    /// The source is at its end.
    Ended,
    /// An answer that closes the connection was sent.
    Closed,
    /// A call of the disk failed.
    DiskFault,
    /// A file of the disk isn't what it should be, from that offset on.
    Damaged { file: FileName, at: u64 },
    /// A call of the keeper failed.
    KeeperFault,
    /// A former fault left the log's end unknown, since that tick of the disk.
    Broken { tick: u64 },
    /// A read failed.
    ReadFault,
    /// A write failed.
    WriteFault,
    /// A body was cut after its head, since a part of it couldn't be fetched.
    BlobFault,
    /// The subscriber wasn't entered.
    NotEntered,
    /// The records that were asked for are no longer there. The first one that is has that time.
    Gone { first: u64 },
    /// The session took as many turns as it may.
    TurnsSpent,
    /// Out of memory.
    Memory,
}
