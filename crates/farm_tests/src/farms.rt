//! Page scripts over the servers of a farm.
ghost use Rattle.std.specs.Prelude.{◌≡◌, ◌≤◌, [], All, IfOk, length};
ghost use Rattle.partition.specs.Farm.{empty_run};
ghost use Rattle.partition.specs.FarmStands.{FarmIsOver, FarmStands};

use crate::scripts::{FORCED, FORCED_PRINTED, GIVEN_UP, GIVEN_UP_PRINTED};
use keeper::{Keeper, MapKeeper};
use page_script::LineEnd;
use partition::FarmScript;
use std::alloc::Global;
use std::test::Fail;

/// So many empty keepers.
fn keepers_of(alloc: Global, count: u64) -> Result<Vec<MapKeeper>, Fail>
    ensures { IfOk result (λ keepers. (length keepers.items ≡ count)
        × All (λ pairs. pairs ≡ []) keepers.items) }
{
    let mut keepers = Vec::new(alloc);
    for _ in 0..count {
        keepers.push(MapKeeper::new(alloc))?;
    }
    Ok(keepers)
}

/// A farm of so many servers.
pub fn farm_of(alloc: Global, servers: u64) -> Result<FarmScript<MapKeeper>, Fail>
    requires { (1 ≤ servers) × (servers ≤ 64) }
    ensures stands { IfOk result (λ farm. FarmStands ⟦<MapKeeper as Keeper>⟧ farm empty_run) }
    ensures begun { IfOk result (λ farm. FarmIsOver farm → ⊥) }
{
    Ok(FarmScript::new(alloc, keepers_of(alloc, servers)?)?)
}

/// Runs one line. It has no contract, so that a test of many lines is checked quickly.
fn end_of(farm: &mut FarmScript<MapKeeper>, line: &[u8], out: &mut Vec<u8>) -> LineEnd {
    farm.line(line, out)
}

/// How the last of the lines ends, up to one that is not done, and what they print.
fn run_over(alloc: Global, servers: u64, lines: &str) -> Result<(LineEnd, Vec<u8>), Fail>
    requires { (1 ≤ servers) × (servers ≤ 64) }
{
    let mut out = Vec::new(alloc);
    let mut farm = farm_of(alloc, servers)?;
    let mut end = LineEnd::Done;
    for line in lines.as_bytes().split(|byte| *byte == b'\n') {
        end = end_of(&mut farm, line, &mut out);
        if end != LineEnd::Done {
            break;
        }
    }
    Ok((end, out))
}

pub const TWO: &str = "page a x2f73 exclusive save 20 x31
page b x2f72 exclusive save 20 x32
page c x2f73 exclusive keep
page d x2f72 exclusive keep
step 0 a
step 0 a
step 0 a
step 0 b
step 0 b
step 0 b
step 0 c
step 0 d";

pub const TWO_PRINTED: &str = "1 0 a acquire : missing
1 0 a run none
1 0 a write 0 20 0 x31 : done
0 0 b acquire : missing
0 0 b run none
0 0 b write 0 20 0 x32 : done
1 0 c acquire : found 2 20 0 x31
0 0 d acquire : found 2 20 0 x32
";

#[test]
fn each_page_is_on_the_server_of_its_key(rt: HostRuntime) -> Result<(), Fail> {
    let (end, out) = run_over(rt.alloc(), 2, TWO)?;
    assert_eq!(rt; end, LineEnd::Done);
    assert!(rt; out.as_slice() == TWO_PRINTED.as_bytes());
    Ok(())
}

/// The text with a number in front of each line.
fn numbered(alloc: Global, text: &str) -> Result<String, Fail> {
    let mut all = String::new(alloc);
    for line in text.lines() {
        all.push_str(&format!(in alloc; "0 {line}\n")?)?;
    }
    Ok(all)
}

#[test]
fn a_farm_of_one_prints_what_one_server_prints(rt: HostRuntime) -> Result<(), Fail> {
    let alloc = rt.alloc();
    for (lines, printed) in [(FORCED, FORCED_PRINTED), (GIVEN_UP, GIVEN_UP_PRINTED)] {
        let (end, out) = run_over(alloc, 1, lines)?;
        assert_eq!(rt; end, LineEnd::Done);
        assert!(rt; out.as_slice() == numbered(alloc, printed)?.as_bytes());
    }
    Ok(())
}

#[test]
fn a_name_is_in_use_on_each_server(rt: HostRuntime) -> Result<(), Fail> {
    let text = "page a x2f73 off keep\npage a x2f72 off keep";
    let (end, out) = run_over(rt.alloc(), 2, text)?;
    assert_eq!(rt; end, LineEnd::NotALine);
    assert!(rt; out.is_empty());
    Ok(())
}

#[test]
fn limits_are_for_each_server(rt: HostRuntime) -> Result<(), Fail> {
    let text = "limits 110 500 1
page a x2f73 exclusive save 20 x31
page b x2f73 exclusive keep
page c x2f73 exclusive keep
page d x2f72 exclusive save 20 x31
page e x2f72 exclusive keep
page f x2f72 exclusive keep
step 0 a
step 0 a
step 0 a
step 0 b
step 0 c
step 0 c
step 0 d
step 0 d
step 0 d
step 0 e
step 0 f
step 0 f";
    let printed = "1 0 a acquire : missing
1 0 a run none
1 0 a write 0 20 0 x31 : done
1 0 b acquire : found 2 20 0 x31
1 0 c acquire : locked 2 0
1 0 c over gave-up 2 0
0 0 d acquire : missing
0 0 d run none
0 0 d write 0 20 0 x31 : done
0 0 e acquire : found 2 20 0 x31
0 0 f acquire : locked 2 0
0 0 f over gave-up 2 0
";
    let (end, out) = run_over(rt.alloc(), 2, text)?;
    assert_eq!(rt; end, LineEnd::Done);
    assert!(rt; out.as_slice() == printed.as_bytes());
    Ok(())
}

#[test]
fn sixty_four_pages_are_over_all_servers(rt: HostRuntime) -> Result<(), Fail> {
    let alloc = rt.alloc();
    let mut out = Vec::new(alloc);
    let mut farm = farm_of(alloc, 64)?;
    for place in 0..65u8 {
        let name = [b'a' + place / 26, b'a' + place % 26];
        let line = format!(in alloc;
            "page {}{} x{:02x} off keep",
            name[0] as char, name[1] as char, place
        )?;
        let end = end_of(&mut farm, line.as_bytes(), &mut out);
        let wanted = if place < 64 {
            LineEnd::Done
        } else {
            LineEnd::NotALine
        };
        assert_eq!(rt; end, wanted);
    }
    Ok(())
}
