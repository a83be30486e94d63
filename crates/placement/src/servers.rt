//! The servers of a farm, and which of them has a session.
ghost use Rattle.std.specs.Prelude.{◌≡◌, ◌<◌, ◌≤◌};
ghost use Rattle.placement.specs.Placement.{identifier_of, server_of_key};

use crate::byte_hash;
use memchr::memrchr;

/// The most servers of a farm.
pub const MOST_SERVERS: u64 = 64;

/// The identifier in a session's key: the bytes behind its last `/`, or the whole key where it has
/// none.
pub fn identifier_in(key: &[u8]) -> &[u8]
    ensures { result.now ≡ identifier_of key.now }
{
    match memrchr(b'/', key) {
        Some(place) => &key[place + 1..],
        None => key,
    }
}

/// The server, counted from 0, that has the session of this key, of 1 to 64 servers. It takes no
/// memory.
pub fn server_of(key: &[u8], servers: u64) -> u64
    requires { (1 ≤ servers) × (servers ≤ 64) }
    ensures server { result ≡ server_of_key key.now servers }
    ensures below { result < servers }
{
    byte_hash(identifier_in(key)) % servers
}
