//! A desk at work over a keeper in memory.
ghost use Rattle.std.specs.Prelude.{◌≤◌, ◌^◌};
ghost use Rattle.asp_messages.specs.Ranges.{RequestFits};

use crate::given::{LAST_COOKIE, on_key, write};
use asp_base::{Bytes, NoMemory};
use asp_messages::{Ask, Reply, Request};
use keeper::ListKeeper;
use plain_desk::{Acted, PlainDesk};
use shard_core::Swept;
use std::alloc::Global;
use std::test::Fail;

/// What an acquire is answered that found the item of `write` free.
fn granted(alloc: Global, cookie: u64) -> Result<Acted, NoMemory> {
    Ok(Acted {
        reply: Reply::Found {
            body: Bytes::copy(alloc, b"x")?,
            minutes: 1,
            cookie: Some(cookie),
            first: false,
        },
        drawn: cookie,
    })
}

/// What the desk answers.
fn act(desk: &mut PlainDesk<ListKeeper>, request: Request, t: u64) -> Acted
    requires request { RequestFits request }
    requires moment { t ≤ 2 ^ 62 }
{
    desk.act(request, t)
}

/// What the desk removes.
fn sweep_one(desk: &mut PlainDesk<ListKeeper>, t: u64) -> Swept
    requires { t ≤ 2 ^ 62 }
{
    desk.sweep_one(t)
}

#[test]
fn the_last_cookie_is_granted_once(rt: HostRuntime) -> Result<(), Fail> {
    let alloc = rt.alloc();
    let mut desk = PlainDesk::new(alloc, ListKeeper::new(alloc), LAST_COOKIE, LAST_COOKIE);
    let done = Acted {
        reply: Reply::Done,
        drawn: 0,
    };
    assert_eq!(rt; act(&mut desk, write(alloc, b'a', 1)?, 0), done);
    assert_eq!(rt; act(&mut desk, write(alloc, b'b', 1)?, 1000), done);
    assert_eq!(rt;
        act(&mut desk, on_key(alloc, b'a', Ask::Acquire)?, 2000),
        granted(alloc, LAST_COOKIE)?
    );
    let none_left = Acted {
        reply: Reply::CookiesOut,
        drawn: 0,
    };
    assert_eq!(rt;
        act(&mut desk, on_key(alloc, b'b', Ask::Acquire)?, 3000),
        none_left
    );
    Ok(())
}

#[test]
fn expired_items_are_removed_in_their_order(rt: HostRuntime) -> Result<(), Fail> {
    let alloc = rt.alloc();
    let mut desk = PlainDesk::new(alloc, ListKeeper::new(alloc), 1, LAST_COOKIE);
    act(&mut desk, write(alloc, b'a', 1)?, 0);
    act(&mut desk, write(alloc, b'b', 1)?, 0);
    assert_eq!(rt; sweep_one(&mut desk, 59_999), Swept::Nothing);
    for letter in [b'a', b'b'] {
        let removed = Swept::Removed {
            key: Bytes::copy(alloc, &[b'/', letter])?,
        };
        assert_eq!(rt; sweep_one(&mut desk, 60_000), removed);
    }
    assert_eq!(rt; sweep_one(&mut desk, 60_000), Swept::Nothing);
    Ok(())
}
