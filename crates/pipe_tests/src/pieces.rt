//! The texts of replies, and a sink that takes them in pieces.
use asp_base::MemorySink;
use std::alloc::Global;
use std::test::Fail;

/// The replies to a write and a read of one key, 38 and 52 bytes.
pub const DONE: &str = "HTTP/1.1 200 OK\r\nContent-Length: 0\r\n\r\n";

pub const FOUND: &str = "HTTP/1.1 200 OK\r\nTimeout: 20\r\nContent-Length: 1\r\n\r\nx";

/// A sink that takes pieces of at least one byte, and fails the listed writes.
pub fn sink(alloc: Global, piece: u64, fails: &[u64]) -> Result<MemorySink, Fail> {
    match MemorySink::new(alloc, 1_024, piece.max(1), Vec::from_slice(alloc, fails)?) {
        Ok(sink) => Ok(sink),
        Err(_) => Err("no memory".into()),
    }
}

/// The texts, one behind the other.
pub fn joined(alloc: Global, texts: &[&str]) -> Result<Vec<u8>, Fail> {
    let mut all = Vec::new(alloc);
    for text in texts {
        all.extend_from_slice(text.as_bytes())?;
    }
    Ok(all)
}
