//! Page requests and their answers.
use crate::running::run_gate;
use std::test::Fail;

#[test]
fn requests_are_answered_in_order(rt: HostRuntime) -> Result<(), Fail> {
    let alloc = rt.alloc();
    for (mode, text, fails, answers) in [
        (
            "cookie",
            b"POST /put HTTP/1.1\r\nContent-Length: 1\r\n\r\nxGET /get HTTP/1.1\r\n\
            Cookie: a=1; ASP.NET_SessionId=baaaaaaaaaaaaaaaaaaaaaaa\r\n\r\n"
                .as_slice(),
            &[] as &[u64],
            b"HTTP/1.1 200 OK\r\nSet-Cookie: ASP.NET_SessionId=baaaaaaaaaaaaaaaaaaaaaaa; path=/; \
            HttpOnly\r\nContent-Length: 0\r\n\r\nHTTP/1.1 200 OK\r\nContent-Length: 1\r\n\r\nx"
                .as_slice(),
        ),
        (
            "url",
            b"GET /get HTTP/1.1\r\n\r\nGET /(S(baaaaaaaaaaaaaaaaaaaaaaa))/get HTTP/1.1\r\n\r\n".as_slice(),
            &[],
            b"HTTP/1.1 302 Found\r\nLocation: /(S(baaaaaaaaaaaaaaaaaaaaaaa))/get\r\n\
            Content-Length: 0\r\n\r\nHTTP/1.1 200 OK\r\nContent-Length: 0\r\n\r\n"
                .as_slice(),
        ),
        // A draw that fails runs no page, and the next one is the first value.
        (
            "cookie",
            b"GET /touch HTTP/1.1\r\n\r\nGET /none HTTP/1.1\r\n\r\n".as_slice(),
            &[0],
            b"HTTP/1.1 500 No Identifier\r\nContent-Length: 0\r\n\r\n\
            HTTP/1.1 404 Not Found\r\nSet-Cookie: ASP.NET_SessionId=baaaaaaaaaaaaaaaaaaaaaaa; \
            path=/; HttpOnly\r\nContent-Length: 0\r\n\r\n"
                .as_slice(),
        ),
        // A draw that fails between two others: the next one is the value that it did not take.
        (
            "cookie",
            b"GET /touch HTTP/1.1\r\n\r\nGET /touch HTTP/1.1\r\n\r\nGET /touch HTTP/1.1\r\n\r\n".as_slice(),
            &[1],
            b"HTTP/1.1 200 OK\r\nSet-Cookie: ASP.NET_SessionId=baaaaaaaaaaaaaaaaaaaaaaa; path=/; \
            HttpOnly\r\nContent-Length: 0\r\n\r\n\
            HTTP/1.1 500 No Identifier\r\nContent-Length: 0\r\n\r\n\
            HTTP/1.1 200 OK\r\nSet-Cookie: ASP.NET_SessionId=caaaaaaaaaaaaaaaaaaaaaaa; path=/; \
            HttpOnly\r\nContent-Length: 0\r\n\r\n"
                .as_slice(),
        ),
        // The session's cookie may be in the last of many fields, among others.
        (
            "cookie",
            b"GET /touch HTTP/1.1\r\nCookie: a=1\r\nCookie: ;; b\r\ncookie: c=ASP.NET_SessionId=x;\t\
            ASP.NET_SessionId=caaaaaaaaaaaaaaaaaaaaaaa ;d=2\r\n\r\n"
                .as_slice(),
            &[],
            b"HTTP/1.1 200 OK\r\nContent-Length: 0\r\n\r\n".as_slice(),
        ),
        // A value in quotes, and one of upper case letters, are no identifiers.
        (
            "cookie",
            b"GET /touch HTTP/1.1\r\nCookie: ASP.NET_SessionId=\"caaaaaaaaaaaaaaaaaaaaaaa\"\r\n\r\n\
            GET /touch HTTP/1.1\r\nCookie: ASP.NET_SessionId=CAAAAAAAAAAAAAAAAAAAAAAA\r\n\r\n"
                .as_slice(),
            &[],
            b"HTTP/1.1 200 OK\r\nSet-Cookie: ASP.NET_SessionId=baaaaaaaaaaaaaaaaaaaaaaa; path=/; \
            HttpOnly\r\nContent-Length: 0\r\n\r\n\
            HTTP/1.1 200 OK\r\nSet-Cookie: ASP.NET_SessionId=caaaaaaaaaaaaaaaaaaaaaaa; path=/; \
            HttpOnly\r\nContent-Length: 0\r\n\r\n"
                .as_slice(),
        ),
        // The second cookie doesn't count, nor a name of another case.
        (
            "cookie",
            b"GET /touch HTTP/1.1\r\nCookie: asp.net_sessionid=caaaaaaaaaaaaaaaaaaaaaaa\r\n\
            Cookie: ASP.NET_SessionId=wrong; ASP.NET_SessionId=caaaaaaaaaaaaaaaaaaaaaaa\r\n\r\n"
                .as_slice(),
            &[],
            b"HTTP/1.1 200 OK\r\nSet-Cookie: ASP.NET_SessionId=baaaaaaaaaaaaaaaaaaaaaaa; path=/; \
            HttpOnly\r\nContent-Length: 0\r\n\r\n"
                .as_slice(),
        ),
        // A path without its end has no identifier, and a target gets the slash that it lacks.
        (
            "url",
            b"GET /(S(baaaaaaaaaaaaaaaaaaaaaaa/get HTTP/1.1\r\n\r\nGET get HTTP/1.1\r\n\r\n".as_slice(),
            &[],
            b"HTTP/1.1 302 Found\r\n\
            Location: /(S(baaaaaaaaaaaaaaaaaaaaaaa))/(S(baaaaaaaaaaaaaaaaaaaaaaa/get\r\n\
            Content-Length: 0\r\n\r\n\
            HTTP/1.1 302 Found\r\nLocation: /(S(caaaaaaaaaaaaaaaaaaaaaaa))/get\r\n\
            Content-Length: 0\r\n\r\n"
                .as_slice(),
        ),
    ] {
        for piece in [1, 7, 16_384] {
            let (status, sink) = run_gate(alloc, mode, text, piece, fails)?;
            assert_eq!(rt; status, 0);
            assert_eq!(rt; sink.taken(), answers);
        }
    }
    Ok(())
}
