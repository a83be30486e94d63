//! Exchanges over one connection: what is asked, and what is answered.
ghost use Rattle.pipe_command.specs.PipeRun.{PipeFits};

use crate::running::{PIPE, run_text, spelled};
use pipe_command::Pipe;
use std::alloc::Global;
use std::test::Fail;

/// Requests that make the item which the next request finds.
const EXPIRING: &[u8] = b"PUT /a HTTP/1.1\r\nTimeout: 1\r\nContent-Length: 1\r\n\r\nx";

const FREE: &[u8] = b"PUT /a HTTP/1.1\r\nContent-Length: 1\r\n\r\nx";

const FRESH: &[u8] = b"PUT /a HTTP/1.1\r\nExtraFlags: 1\r\nContent-Length: 1\r\n\r\nx";

const HELD: &[u8] =
    b"PUT /a HTTP/1.1\r\nContent-Length: 1\r\n\r\nxGET /a HTTP/1.1\r\nExclusive: acquire\r\n\r\n";

// Whether the requests, which come in pieces of so many bytes, are answered so, and the run ends
// well.
fn is_answered_so(
    alloc: Global,
    pipe: Pipe,
    text: &[u8],
    piece: u64,
    replies: &str,
) -> Result<bool, Fail>
    requires { PipeFits pipe }
{
    let (status, output) = run_text(alloc, pipe, text, piece)?;
    let lines = spelled(alloc, output.taken())?;
    Ok(status == 0 && lines.as_slice() == replies.as_bytes())
}

/// Requests, one after the other, and their replies, however the requests are cut.
#[test]
fn requests_are_answered_in_order(rt: HostRuntime) -> Result<(), Fail> {
    let alloc = rt.alloc();
    for (step, first, text, replies) in [
        (1000, 1, b"".as_slice(), ""),
        (
            1000,
            1,
            b"GET /none HTTP/1.1\r\n\r\n".as_slice(),
            "missing\n",
        ),
        (
            1000,
            1,
            b"PUT /a HTTP/1.1\r\nContent-Length: 1\r\n\r\nxGET /a HTTP/1.1\r\n\
            Exclusive: acquire\r\n\r\nGET /a HTTP/1.1\r\nExclusive: acquire\r\n\r\n\
            GET /a HTTP/1.1\r\n\r\n"
                .as_slice(),
            "done\nfound 1 20 0 x78\nlocked 1 1\nlocked 1 2\n",
        ),
        (
            1000,
            1,
            b"PUT /a HTTP/1.1\r\nContent-Length: 1\r\n\r\nxGET /a HTTP/1.1\r\n\
            Exclusive: acquire\r\n\r\nGET /a HTTP/1.1\r\nExclusive: acquire\r\n\r\n\
            GET /a HTTP/1.1\r\n\r\nGET /a HTTP/1.1\r\nExclusive: release\r\nLockCookie: 1\r\n\r\n\
            GET /a HTTP/1.1\r\nExclusive: acquire\r\n\r\n"
                .as_slice(),
            "done\nfound 1 20 0 x78\nlocked 1 1\nlocked 1 2\ndone\nfound 3 20 0 x78\n",
        ),
        (
            1000,
            1,
            b"PUT /a HTTP/1.1\r\nContent-Length: 1\r\n\r\nxGET /a HTTP/1.1\r\n\
            Exclusive: acquire\r\n\r\nPUT /a HTTP/1.1\r\nLockCookie: 2\r\n\
            Content-Length: 1\r\n\r\nzPUT /a HTTP/1.1\r\nLockCookie: 1\r\n\
            Content-Length: 1\r\n\r\nyGET /a HTTP/1.1\r\n\r\n"
                .as_slice(),
            "done\nfound 1 20 0 x78\nlocked 1 1\ndone\nfound 0 20 0 x79\n",
        ),
        (
            1000,
            1,
            b"PUT /a HTTP/1.1\r\nContent-Length: 1\r\n\r\nxGET /a HTTP/1.1\r\n\
            Exclusive: acquire\r\n\r\nPUT /a HTTP/1.1\r\nLockCookie: 2\r\n\
            Content-Length: 1\r\n\r\nzPUT /a HTTP/1.1\r\nLockCookie: 1\r\n\
            Content-Length: 1\r\n\r\nyGET /a HTTP/1.1\r\n\r\nPUT /a HTTP/1.1\r\n\
            LockCookie: 1\r\nContent-Length: 1\r\n\r\nzGET /a HTTP/1.1\r\n\r\n"
                .as_slice(),
            "done\nfound 1 20 0 x78\nlocked 1 1\ndone\nfound 0 20 0 x79\nlocked 0 0\n\
            found 0 20 0 x79\n",
        ),
        (
            1000,
            1,
            b"PUT /a HTTP/1.1\r\nContent-Length: 1\r\n\r\nxGET /a HTTP/1.1\r\n\
            Exclusive: acquire\r\n\r\nDELETE /a HTTP/1.1\r\nLockCookie: 1\r\n\r\n\
            PUT /a HTTP/1.1\r\nContent-Length: 1\r\n\r\nyDELETE /a HTTP/1.1\r\n\
            LockCookie: 1\r\n\r\nGET /a HTTP/1.1\r\n\r\n"
                .as_slice(),
            "done\nfound 1 20 0 x78\ndone\ndone\nlocked 0 0\nfound 0 20 0 x79\n",
        ),
        (
            1000,
            1,
            b"PUT /a HTTP/1.1\r\nExtraFlags: 1\r\n\r\nGET /a HTTP/1.1\r\n\r\n\
            GET /a HTTP/1.1\r\n\r\nPUT /a HTTP/1.1\r\nExtraFlags: 1\r\nContent-Length: 1\r\n\r\n\
            zGET /a HTTP/1.1\r\n\r\n"
                .as_slice(),
            "done\nfound 0 20 1 x\nfound 0 20 0 x\ndone\nfound 0 20 0 x\n",
        ),
        (
            60000,
            1,
            b"PUT /a HTTP/1.1\r\nTimeout: 1\r\nContent-Length: 1\r\n\r\n\
            xGET /a HTTP/1.1\r\n\r\n"
                .as_slice(),
            "done\nmissing\n",
        ),
        (
            59999,
            1,
            b"PUT /a HTTP/1.1\r\nTimeout: 1\r\nContent-Length: 1\r\n\r\n\
            xGET /a HTTP/1.1\r\n\r\n"
                .as_slice(),
            "done\nfound 0 1 0 x78\n",
        ),
        (
            59999,
            1,
            b"PUT /a HTTP/1.1\r\nTimeout: 1\r\n\r\nGET /a HTTP/1.1\r\nExclusive: acquire\r\n\r\n\
            HEAD /a HTTP/1.1\r\n\r\nHEAD /a HTTP/1.1\r\n\r\nGET /a HTTP/1.1\r\n\
            Exclusive: release\r\nLockCookie: 1\r\n\r\nGET /a HTTP/1.1\r\n\r\n"
                .as_slice(),
            "done\nfound 1 1 0 x\ndone\ndone\ndone\nfound 0 1 0 x\n",
        ),
        (
            59999,
            1,
            b"PUT /a HTTP/1.1\r\nTimeout: 1\r\n\r\nGET /a HTTP/1.1\r\nExclusive: acquire\r\n\r\n\
            GET /a HTTP/1.1\r\n\r\nHEAD /a HTTP/1.1\r\n\r\n"
                .as_slice(),
            "done\nfound 1 1 0 x\nlocked 1 59\nmissing\n",
        ),
        (
            1000,
            1,
            b"PUT /LM/W3SVC/1/ROOT(q)/id HTTP/1.1\r\nHost: web1\r\nTimeout: 20\r\n\
            Content-Length: 3\r\n\r\nabcGET %2fLM%2fW3SVC%2f1%2fROOT(q)%2fid HTTP/1.1\r\n\
            Host: web1\r\nExclusive: acquire\r\n\r\n"
                .as_slice(),
            "done\nfound 1 20 0 x616263\n",
        ),
        (
            1000,
            1,
            b"GET /a HTTP/1.1\r\nExclusive: release\r\n\r\nGET /a HTTP/1.1\r\n\r\n".as_slice(),
            "bad\nmissing\n",
        ),
        (
            1000,
            9223372036854775807,
            b"PUT /a HTTP/1.1\r\nContent-Length: 1\r\n\r\nxPUT /b HTTP/1.1\r\n\
            Content-Length: 1\r\n\r\nxGET /a HTTP/1.1\r\nExclusive: acquire\r\n\r\n\
            GET /b HTTP/1.1\r\nExclusive: acquire\r\n\r\nGET /b HTTP/1.1\r\n\r\n"
                .as_slice(),
            "done\ndone\nfound 9223372036854775807 20 0 x78\ncookies-out\nfound 0 20 0 x78\n",
        ),
        (
            1000,
            1,
            b"HEAD /a HTTP/1.1\r\nContent-Length: 2\r\n\r\nzzGET /a HTTP/1.0\r\n\r\n".as_slice(),
            "missing\nmissing\n",
        ),
        (
            1000,
            1,
            b"POST /a HTTP/1.1\r\n\r\nPUT /a HTTP/1.1\r\nTimeout: 0\r\n\r\nPUT /a HTTP/1.1\r\n\
            Timeout: 525601\r\n\r\nGET /a HTTP/1.1\r\nExclusive: acquire\r\n\
            exclusive: acquire\r\n\r\nGET /a HTTP/1.1\r\n\r\n"
                .as_slice(),
            "bad\nbad\nbad\nbad\nmissing\n",
        ),
        (
            1000,
            1,
            b"PUT /a HTTP/1.1\r\ntimeout: 00525600\r\nLockCookie: 0\r\n\r\n\
            GET /a HTTP/1.1\r\n\r\n"
                .as_slice(),
            "done\nfound 0 525600 0 x\n",
        ),
        // One day after it was made an item is gone, whatever touched or locked it since.
        (
            43_200_000,
            1,
            b"PUT /a HTTP/1.1\r\nTimeout: 525600\r\nContent-Length: 1\r\n\r\n\
            xGET /a HTTP/1.1\r\n\r\nGET /a HTTP/1.1\r\n\r\n"
                .as_slice(),
            "done\nfound 0 525600 0 x78\nmissing\n",
        ),
        (
            43_199_999,
            1,
            b"PUT /a HTTP/1.1\r\nTimeout: 525600\r\nContent-Length: 1\r\n\r\n\
            xGET /a HTTP/1.1\r\n\r\nGET /a HTTP/1.1\r\n\r\n"
                .as_slice(),
            "done\nfound 0 525600 0 x78\nfound 0 525600 0 x78\n",
        ),
        (
            43_200_000,
            1,
            b"PUT /a HTTP/1.1\r\nTimeout: 525600\r\nContent-Length: 1\r\n\r\n\
            xGET /a HTTP/1.1\r\nExclusive: acquire\r\n\r\nPUT /a HTTP/1.1\r\n\
            LockCookie: 1\r\nContent-Length: 1\r\n\r\ny"
                .as_slice(),
            "done\nfound 1 525600 0 x78\nmissing\n",
        ),
    ] {
        let pipe = Pipe {
            step,
            first,
            ..PIPE
        };
        let by_bytes = is_answered_so(alloc, pipe, text, 1, replies)?;
        let by_twos = is_answered_so(alloc, pipe, text, 2, replies)?;
        let by_threes = is_answered_so(alloc, pipe, text, 3, replies)?;
        let whole = is_answered_so(alloc, pipe, text, 16_384, replies)?;
        assert!(rt; whole, "wanted {replies}");
        assert!(rt;
            by_bytes && by_twos && by_threes,
            "in pieces: wanted {replies}"
        );
    }
    Ok(())
}

#[test]
fn a_lock_in_the_way_is_told_with_the_moment_of_its_acquisition(
    rt: HostRuntime,
) -> Result<(), Fail> {
    let alloc = rt.alloc();
    let mut text = Vec::from_slice(alloc, HELD)?;
    text.extend_from_slice(b"GET /a HTTP/1.1\r\nExclusive: acquire\r\n\r\n")?;
    text.extend_from_slice(b"GET /a HTTP/1.1\r\n\r\n")?;
    let (status, output) = run_text(alloc, PIPE, &text, 16_384)?;
    let last = b"HTTP/1.1 423 Locked\r\nLockCookie: 1\r\nLockAge: 2\r\nLockDate: 1000\r\n\
        Content-Length: 0\r\n\r\n"
        .as_slice();
    assert_eq!(rt; status, 0);
    assert!(rt; output.taken().ends_with(last));
    Ok(())
}

/// Each ask where the item is absent, expired, free, free and uninitialized, and under the lock of
/// cookie 1; and what a plain read finds then.
#[test]
fn each_ask_finds_each_item_by_the_table(rt: HostRuntime) -> Result<(), Fail> {
    let alloc = rt.alloc();
    for (ask, replies) in [
        (
            b"GET /a HTTP/1.1\r\n\r\n".as_slice(),
            [
                "missing\nmissing\n",
                "missing\nmissing\n",
                "found 0 20 0 x78\nfound 0 20 0 x78\n",
                "found 0 20 1 x78\nfound 0 20 0 x78\n",
                "locked 1 1\nlocked 1 2\n",
            ],
        ),
        (
            b"GET /a HTTP/1.1\r\nExclusive: acquire\r\n\r\n".as_slice(),
            [
                "missing\nmissing\n",
                "missing\nmissing\n",
                "found 1 20 0 x78\nlocked 1 1\n",
                "found 1 20 1 x78\nlocked 1 1\n",
                "locked 1 1\nlocked 1 2\n",
            ],
        ),
        (
            b"GET /a HTTP/1.1\r\nExclusive: release\r\nLockCookie: 1\r\n\r\n".as_slice(),
            [
                "missing\nmissing\n",
                "missing\nmissing\n",
                "done\nfound 0 20 0 x78\n",
                "done\nfound 0 20 1 x78\n",
                "done\nfound 0 20 0 x78\n",
            ],
        ),
        (
            b"GET /a HTTP/1.1\r\nExclusive: release\r\nLockCookie: 9\r\n\r\n".as_slice(),
            [
                "missing\nmissing\n",
                "missing\nmissing\n",
                "done\nfound 0 20 0 x78\n",
                "done\nfound 0 20 1 x78\n",
                "locked 1 1\nlocked 1 2\n",
            ],
        ),
        (
            b"PUT /a HTTP/1.1\r\nContent-Length: 1\r\n\r\ny".as_slice(),
            [
                "done\nfound 0 20 0 x79\n",
                "done\nfound 0 20 0 x79\n",
                "done\nfound 0 20 0 x79\n",
                "done\nfound 0 20 0 x79\n",
                "locked 1 1\nlocked 1 2\n",
            ],
        ),
        (
            b"PUT /a HTTP/1.1\r\nExtraFlags: 1\r\nContent-Length: 1\r\n\r\ny".as_slice(),
            [
                "done\nfound 0 20 1 x79\n",
                "done\nfound 0 20 1 x79\n",
                "done\nfound 0 20 0 x78\n",
                "done\nfound 0 20 1 x78\n",
                "done\nlocked 1 2\n",
            ],
        ),
        (
            b"PUT /a HTTP/1.1\r\nLockCookie: 1\r\nContent-Length: 1\r\n\r\ny".as_slice(),
            [
                "missing\nmissing\n",
                "missing\nmissing\n",
                "locked 0 0\nfound 0 20 0 x78\n",
                "locked 0 0\nfound 0 20 1 x78\n",
                "done\nfound 0 20 0 x79\n",
            ],
        ),
        (
            b"PUT /a HTTP/1.1\r\nExtraFlags: 1\r\nLockCookie: 1\r\n\
            Content-Length: 1\r\n\r\ny"
                .as_slice(),
            [
                "missing\nmissing\n",
                "missing\nmissing\n",
                "locked 0 0\nfound 0 20 0 x78\n",
                "locked 0 0\nfound 0 20 1 x78\n",
                "done\nfound 0 20 1 x79\n",
            ],
        ),
        (
            b"PUT /a HTTP/1.1\r\nLockCookie: 9\r\nContent-Length: 1\r\n\r\ny".as_slice(),
            [
                "missing\nmissing\n",
                "missing\nmissing\n",
                "locked 0 0\nfound 0 20 0 x78\n",
                "locked 0 0\nfound 0 20 1 x78\n",
                "locked 1 1\nlocked 1 2\n",
            ],
        ),
        (
            b"DELETE /a HTTP/1.1\r\n\r\n".as_slice(),
            [
                "missing\nmissing\n",
                "missing\nmissing\n",
                "done\nmissing\n",
                "done\nmissing\n",
                "locked 1 1\nlocked 1 2\n",
            ],
        ),
        (
            b"DELETE /a HTTP/1.1\r\nLockCookie: 1\r\n\r\n".as_slice(),
            [
                "missing\nmissing\n",
                "missing\nmissing\n",
                "locked 0 0\nfound 0 20 0 x78\n",
                "locked 0 0\nfound 0 20 1 x78\n",
                "done\nmissing\n",
            ],
        ),
        (
            b"DELETE /a HTTP/1.1\r\nLockCookie: 9\r\n\r\n".as_slice(),
            [
                "missing\nmissing\n",
                "missing\nmissing\n",
                "locked 0 0\nfound 0 20 0 x78\n",
                "locked 0 0\nfound 0 20 1 x78\n",
                "locked 1 1\nlocked 1 2\n",
            ],
        ),
        (
            b"HEAD /a HTTP/1.1\r\n\r\n".as_slice(),
            [
                "missing\nmissing\n",
                "missing\nmissing\n",
                "done\nfound 0 20 0 x78\n",
                "done\nfound 0 20 1 x78\n",
                "done\nlocked 1 2\n",
            ],
        ),
    ] {
        let [absent, expired, free, fresh, held] = replies;
        for (expires, before, answered, reply) in [
            (false, b"".as_slice(), "", absent),
            (true, EXPIRING, "done\n", expired),
            (false, FREE, "done\n", free),
            (false, FRESH, "done\n", fresh),
            (false, HELD, "done\nfound 1 20 0 x78\n", held),
        ] {
            let mut text = Vec::from_slice(alloc, before)?;
            text.extend_from_slice(ask)?;
            text.extend_from_slice(b"GET /a HTTP/1.1\r\n\r\n")?;
            let pipe = Pipe {
                step: if expires { 60_000 } else { 1000 },
                ..PIPE
            };
            let (status, output) = run_text(alloc, pipe, &text, 16_384)?;
            let lines = spelled(alloc, output.taken())?;
            let mut wanted = Vec::from_slice(alloc, answered.as_bytes())?;
            wanted.extend_from_slice(reply.as_bytes())?;
            assert_eq!(rt; status, 0);
            assert_eq!(rt;
                lines.as_slice(),
                wanted.as_slice(),
                "wanted {answered}{reply}"
            );
        }
    }
    Ok(())
}
