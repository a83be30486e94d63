//! A page script by the command line.
use crate::edges::words_of;
use crate::running::{command_status, sink, source};
use keeper::ListKeeper;
use std::test::Fail;

const SCRIPT: &[u8] =
    b"page c x2f73 exclusive save 20 x31\npage a x2f73 exclusive keep\nstep 0 c\nstep 0 c\n\
    step 0 c\nstep 0 a\nstep 500 a\nstep 500 a\nstep 500 a\n";

const PRINTED: &[u8] = b"0 c acquire : missing\n0 c run none\n0 c write 0 20 0 x31 : done\n\
    0 a acquire : found 2 20 0 x31\n500 a run 0 x31\n500 a release 2 : done\n500 a over done\n";

#[test]
fn the_steps_of_two_pages_are_printed(rt: HostRuntime) -> Result<(), Fail> {
    let alloc = rt.alloc();
    let given = words_of(alloc, &["drive"])?;
    let mut input = source(alloc, SCRIPT, 16_384, &[])?;
    let mut output = sink(alloc, &[])?;
    let status = command_status(
        alloc,
        &given,
        &mut input,
        &mut output,
        ListKeeper::new(alloc),
    );
    assert_eq!(rt; status, 0);
    assert_eq!(rt; output.taken(), PRINTED);
    Ok(())
}
