//! Replies, counted by their status.
ghost use Rattle.std.specs.Prelude.{◌≡◌, ◌^◌, [], IfOk, OnOk, codes};
ghost use Rattle.load_generator.specs.LoadRun.{◌and◌};
ghost use Rattle.load_generator.specs.StatusCounting.{AreBelow, CountsAre, counted, counts_text};

use asp_base::NoMemory;
use asp_messages::Reply;
use itoa::Buffer;
use std::alloc::Global;

/// How many replies have each status.
#[derive(Clone, Copy, Debug, PartialEq, Eq)]
pub struct Counts {
    /// 200
    pub ok: u64,
    /// 400
    pub bad: u64,
    /// 404
    pub missing: u64,
    /// 423
    pub locked: u64,
    /// 500
    pub faults: u64,
    /// 503
    pub no_memory: u64,
    /// 507
    pub cookies_out: u64,
}

fn push_count(out: &mut Vec<u8>, name: &[u8], n: u64) -> Result<(), NoMemory>
    ensures { OnOk result (out.new.items ≡ out.old.items and (name.now, n)) }
{
    let mut buffer = Buffer::new();
    out.extend_from_slice(name)?;
    out.extend_from_slice(b" ")?;
    out.extend_from_slice(buffer.format(n).as_bytes())?;
    out.extend_from_slice(b"\n")?;
    Ok(())
}

impl Counts {
    /// No reply was counted.
    pub fn new() -> Counts
        ensures { CountsAre result [] }
    {
        Counts {
            ok: 0,
            bad: 0,
            missing: 0,
            locked: 0,
            faults: 0,
            no_memory: 0,
            cookies_out: 0,
        }
    }

    /// Counts one reply more.
    pub fn count(&mut self, reply: &Reply)
        requires { AreBelow (2 ^ 32) self.old }
        ensures { self.new ≡ counted self.old reply.now }
    {
        match reply {
            Reply::Found { .. } | Reply::Done => self.ok += 1,
            Reply::Locked { .. } => self.locked += 1,
            Reply::Missing => self.missing += 1,
            Reply::Bad => self.bad += 1,
            Reply::KeeperFault => self.faults += 1,
            Reply::NoMemory => self.no_memory += 1,
            Reply::CookiesOut => self.cookies_out += 1,
            Reply::PlacesOut => {}
        }
    }

    /// The text of a load with these counts.
    pub fn text(&self, alloc: Global, requests: u64, removed: u64) -> Result<Vec<u8>, NoMemory>
        ensures { IfOk result (λ text. text.items ≡ counts_text requests self.now removed) }
    {
        let mut out = Vec::new(alloc);
        push_count(&mut out, b"requests", requests)?;
        push_count(&mut out, b"200", self.ok)?;
        push_count(&mut out, b"400", self.bad)?;
        push_count(&mut out, b"404", self.missing)?;
        push_count(&mut out, b"423", self.locked)?;
        push_count(&mut out, b"500", self.faults)?;
        push_count(&mut out, b"503", self.no_memory)?;
        push_count(&mut out, b"507", self.cookies_out)?;
        push_count(&mut out, b"removed", removed)?;
        Ok(out)
    }
}
