//! Cookies drawn by one thread and by two.
ghost use Rattle.std.specs.Prelude.{◌≡◌, All, IfSome};
ghost use Rattle.cookie_source.specs.Source.{source_id, drawer_home, IsNewDrawer};

use cookie_source::{CookieSource, Drawer, FreshCookies, PlainCookies};
use std::test::Fail;
use std::thread::{Threads, join};

/// The next of one thread's cookies.
fn next(cookies: &mut PlainCookies) -> Option<u64> {
    cookies.draw()
}

/// What the drawer draws.
fn draw<R>(rt: &R, source: &CookieSource, drawer: &mut Drawer) -> Option<u64>
    requires home { drawer_home drawer.old ≡ source_id source.now }
    ensures home { drawer_home drawer.new ≡ drawer_home drawer.old }
{
    source.draw(rt, drawer)
}

#[test]
fn plain_cookies_end_after_the_last(rt: HostRuntime) {
    let mut cookies = PlainCookies::new(5, 6);
    assert_eq!(rt; next(&mut cookies), Some(5));
    assert_eq!(rt; next(&mut cookies), Some(6));
    assert_eq!(rt; next(&mut cookies), None);
    assert_eq!(rt; next(&mut cookies), None);
}

#[test]
fn one_drawer_ends_after_the_last(rt: HostRuntime) -> Result<(), Fail> {
    let mut cookies = CookieSource::new(&rt, rt.alloc(), 5, 6, 1)?;
    let mut drawer = cookies.drawers.pop().expect(&rt, "one drawer");
    let source = &cookies.source;
    assert_eq!(rt; draw(&rt, source, &mut drawer), Some(5));
    assert_eq!(rt; draw(&rt, source, &mut drawer), Some(6));
    assert_eq!(rt; draw(&rt, source, &mut drawer), None);
    Ok(())
}

/// The sum of so many cookies.
fn draw_often<R>(rt: &R, source: &CookieSource, mut drawer: Drawer, count: u64) -> u64
    requires home { drawer_home drawer ≡ source_id source.now }
{
    let mut sum = 0u64;
    for _ in 0..count {
        sum = sum.wrapping_add(draw(rt, source, &mut drawer).unwrap_or(0));
    }
    sum
}

fn take_drawer(source: &CookieSource, drawers: &mut Vec<Drawer>) -> Option<Drawer>
    requires new { All (IsNewDrawer source.now) drawers.old.items }
    ensures home { IfSome result (λ d. drawer_home d ≡ source_id source.now) }
    ensures new { All (IsNewDrawer source.now) drawers.new.items }
{
    drawers.pop()
}

/// The sum of the cookies that two threads draw, 1,000 each, and what a third drawer then draws.
fn two_draw<R: Threads + Sync>(rt: &R, cookies: FreshCookies) -> Option<(u64, Option<u64>)>
    requires new { All (IsNewDrawer cookies.source) cookies.drawers.items }
{
    let FreshCookies {
        source,
        mut drawers,
    } = cookies;
    let a = take_drawer(&source, &mut drawers)?;
    let b = take_drawer(&source, &mut drawers)?;
    let mut c = take_drawer(&source, &mut drawers)?;
    let (a, b) = join(
        rt,
        || draw_often(rt, &source, a, 1000),
        || draw_often(rt, &source, b, 1000),
    );
    Some((a.wrapping_add(b), draw(rt, &source, &mut c)))
}

#[test]
fn two_threads_draw_each_cookie_once(rt: HostRuntime) -> Result<(), Fail> {
    let cookies = CookieSource::new(&rt, rt.alloc(), 1, 2000, 3)?;
    // The sum of the numbers from 1 to 2,000, and none is left.
    assert_eq!(rt; two_draw(&rt, cookies), Some((2_001_000, None)));
    Ok(())
}
