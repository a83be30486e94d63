//! Loads over a keeper in memory.
use asp_base::MemorySink;
use keeper::{Keeper, ListKeeper};
use load_generator::{Load, run_load};
use std::alloc::Global;
use std::test::Fail;

const TEN: &[u8] = b"requests 10\n200 5\n400 0\n404 5\n423 0\n500 0\n503 0\n507 0\nremoved 5\n";

const NONE: &[u8] = b"requests 0\n200 0\n400 0\n404 0\n423 0\n500 0\n503 0\n507 0\nremoved 0\n";

#[test]
fn a_load_of_ten_finds_five_items(rt: HostRuntime) -> Result<(), Fail> {
    let alloc = rt.alloc();
    for (requests, text) in [(10, TEN), (0, NONE)] {
        let mut sink = MemorySink::new(alloc, 1000, 16_384, Vec::new(alloc))?;
        let load = Load { requests, seed: 1 };
        let mut ran = run_load(alloc, load, &mut sink, ListKeeper::new(alloc));
        assert_eq!(rt; ran.status, 0);
        assert_eq!(rt; sink.taken(), text);
        assert!(rt; ran.keeper.due(1 << 62).is_ok_and(|key| key.is_none()));
    }
    Ok(())
}
