//! The texts of requests and replies, and moments of a clock.
ghost use Rattle.std.specs.Prelude.{◌≤◌, ◌^◌, IfOk, All};

use std::alloc::Global;
use std::test::Fail;

pub const ACQUIRE: &str = "GET %2Fs HTTP/1.1\r\nHost: state\r\nExclusive: acquire\r\n\r\n";

pub const RELEASE_2: &str =
    "GET %2Fs HTTP/1.1\r\nHost: state\r\nExclusive: release\r\nLockCookie: 2\r\n\r\n";

pub const MISSING: &str = "HTTP/1.1 404 Not Found\r\nContent-Length: 0\r\n\r\n";

pub const DONE: &str = "HTTP/1.1 200 OK\r\nContent-Length: 0\r\n\r\n";

pub const LOCKED_110: &str =
    "HTTP/1.1 423 Locked\r\nLockCookie: 2\r\nLockAge: 110\r\nContent-Length: 0\r\n\r\n";

pub const LOCKED_111: &str =
    "HTTP/1.1 423 Locked\r\nLockCookie: 2\r\nLockAge: 111\r\nContent-Length: 0\r\n\r\n";

pub const FOUND_2: &str =
    "HTTP/1.1 200 OK\r\nTimeout: 20\r\nLockCookie: 2\r\nContent-Length: 1\r\n\r\nx";

/// The texts, one behind the other.
pub fn joined(alloc: Global, texts: &[&str]) -> Result<Vec<u8>, Fail> {
    let mut all = Vec::new(alloc);
    for text in texts {
        all.extend_from_slice(text.as_bytes())?;
    }
    Ok(all)
}

/// The moments, each at most the latest.
pub fn moments_of(alloc: Global, moments: &[u64]) -> Result<Vec<u64>, Fail>
    ensures { IfOk result (λ all. All (λ m. m ≤ 2 ^ 62) all.items) }
{
    let mut all = Vec::new(alloc);
    for moment in moments {
        all.push((*moment).min(1 << 62))?;
    }
    Ok(all)
}
