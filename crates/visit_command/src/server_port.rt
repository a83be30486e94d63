//! The ports of a farm's servers, and the one that has a session.
ghost use Rattle.std.specs.Prelude.{◌≡◌, ◌∷◌, ◌++◌, [], Some, None, IfSome, MatchOption, length};
ghost use Rattle.visit_command.specs.ServerPorts.{IsPort, PortsFit, port_of, port_for, ports_of};

use arrayvec::ArrayVec;
use asp_base::read_number;
use placement::{MOST_SERVERS, server_of};
use plain_words::split_at_byte;

/// The most ports in a word.
const MOST_PORTS: usize = MOST_SERVERS as usize;

/// The ports of 1 to 64 servers, each 1 to 65,535.
pub type Ports = ArrayVec<u64, MOST_PORTS>;

fn port_of(word: &[u8]) -> Option<u64>
    ensures value { result ≡ port_of word.now }
    ensures fits { IfSome result IsPort }
{
    let port = read_number(word, u16::MAX as u64)?;
    if port > 0 { Some(port) } else { None }
}

/// The ports that the word spells, with a comma between two; `None` exactly where it spells none.
pub fn read_ports(word: &[u8]) -> Option<Ports>
    ensures value { MatchOption result (ports_of word.now ≡ None)
        (λ ports. ports_of word.now ≡ Some ports.items) }
    ensures fits { IfSome result (λ ports. PortsFit ports.items) }
{
    let mut ports = Ports::new();
    let mut rest = word;
    while let Some((part, behind)) = split_at_byte(rest, b',') {
        ports.try_push(port_of(part)?).ok()?;
        rest = behind;
    }
    ports.try_push(port_of(rest)?).ok()?;
    Some(ports)
}

/// The port of the server that has the session of this key.
pub fn port_for(ports: &Ports, key: &[u8]) -> u64
    requires { PortsFit ports.now.items }
    ensures value { result ≡ port_for ports.now.items key.now }
    ensures fits { IsPort result }
{
    ports[server_of(key, ports.len() as u64) as usize]
}
