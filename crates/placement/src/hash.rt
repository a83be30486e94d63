//! The hash by which keys are spread.
ghost use Rattle.std.specs.Prelude.{◌≡◌, ◌<◌};
ghost use Rattle.placement.specs.Placement.{hash_of};

/// The hash of the bytes, below 65,536: from 0 on, 31 times the hash so far, and the byte. It takes
/// no memory.
pub fn byte_hash(bytes: &[u8]) -> u64
    ensures hash { result ≡ hash_of bytes.now }
    ensures below { result < 65536 }
{
    let mut hash: u64 = 0;
    for byte in bytes {
        hash = (hash * 31 + u64::from(*byte)) % 65536;
    }
    hash
}
