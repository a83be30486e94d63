//! The random values of the host.
use id_gateway::{HostRandom, Random};

#[test]
fn two_values_of_the_host_differ(rt: HostRuntime) {
    let mut random = HostRandom::new(&rt);
    let first = random.draw();
    let second = random.draw();
    assert!(rt; first.is_ok() && second.is_ok() && first != second);
}
