//! Which shard has a key, and which server of a farm.
use placement::{identifier_in, server_of};
use state_store::shard_of;

#[test]
fn keys_spread_over_shards(rt: HostRuntime) {
    for (key, shards, shard) in [
        (b"".as_slice(), 8, 0),
        (b"/a".as_slice(), 1, 0),
        (b"/a".as_slice(), 8, 2),
        (b"/b".as_slice(), 8, 3),
        (b"/d".as_slice(), 8, 5),
        (b"/h".as_slice(), 8, 1),
        (b"/a".as_slice(), 64, 18),
        (b"/LM/W3SVC/1/ROOT(q)/id".as_slice(), 64, 52),
        (b"/\xff\xff\xff".as_slice(), 64, 16),
    ] {
        assert_eq!(rt; shard_of(key, shards), shard);
    }
}

#[test]
fn identifiers_spread_over_servers(rt: HostRuntime) {
    for (key, servers, server) in [
        (b"/s/b".as_slice(), 3, 2),
        (b"/s/ab".as_slice(), 3, 0),
        (b"/s".as_slice(), 2, 1),
        (b"/r".as_slice(), 2, 0),
        (b"s".as_slice(), 2, 1),
        (b"/s/".as_slice(), 64, 0),
        (b"".as_slice(), 64, 0),
        (b"/other/s".as_slice(), 64, 51),
    ] {
        assert_eq!(rt; server_of(key, servers), server);
    }
    assert!(rt; identifier_in(b"/LM/W3SVC/1/ROOT(q)/id") == b"id".as_slice());
}
