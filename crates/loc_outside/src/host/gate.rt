//! What the host shows, and what is there on it.
ghost use Rattle.std.specs.Prelude.{◌≡◌, None, ⊤, min};
ghost use Rattle.std.proofs.Common.{refl};
ghost use Rattle.loc_outside.specs.Causes.{last_count, stays_below};

use crate::host::files::fault;
use crate::host::tree::{is_out_of_reach, open_entries, reachable};
use crate::{Failed, Gate};
use std::fs;
use std::marker::Model;

/// Whether the directory can be listed.
fn can_be_listed(rt: HostRuntime, dir: &[u8]) -> Result<bool, Failed> {
    let Some(path) = reachable(dir) else {
        return Ok(false);
    };
    match open_entries(rt, path) {
        Ok(_) => Ok(true),
        Err(error) if is_out_of_reach(error.kind()) => Ok(false),
        Err(_) => Err(Failed),
    }
}

/// Whether the path can be looked up.
fn can_be_looked_up(rt: HostRuntime, path: &[u8], follow: bool) -> Result<bool, Failed> {
    let Ok(path) = str::from_utf8(path) else {
        return Ok(false);
    };
    let answer = if follow {
        fs::metadata(&rt, path)
    } else {
        fs::symlink_metadata(&rt, path)
    };
    match answer {
        Ok(_) => Ok(true),
        Err(error) if is_out_of_reach(error.kind()) => Ok(false),
        Err(_) => Err(Failed),
    }
}

/// What the host shows and has, as the user whose program this is. A contract sees the counts of asks and of faults.
///
/// `shows`: a directory is shown where it can be listed: it is opened, and its first entry read. A link to one is followed.
///
/// `exists`: a path exists where it can be looked up.
///
/// What can't be reached is not shown and doesn't exist: by permission, because what is on the way is no directory, for a
/// name or path that is too long or not UTF-8, for a loop of links, or for a mount that has lost its file system. A directory
/// whose path has more than 4,094 bytes is not shown. Any other fault is `Failed`.
#[derive(Drop)]
pub struct HostGate {
    rt: HostRuntime,
    asks: u64,
    faults: u64,
}

impl Model for HostGate {
    ghost use Rattle.loc_outside.specs.Host.{GateCounts};

    ghost Value = { GateCounts };

    ghost view = { λ h. record { asks = h.asks; faults = h.faults } };
}

impl HostGate {
    /// The gate of this host, which was not asked.
    pub fn new(rt: HostRuntime) -> HostGate
        ensures { result ≡ record { asks = 0; faults = 0 } }
    {
        HostGate {
            rt,
            asks: 0,
            faults: 0,
        }
    }
}

impl Gate for HostGate {
    ghost tests = { λ h. None };

    ghost asks = { λ h. min h.asks last_count };

    ghost faults = { λ h. min h.faults last_count };

    ghost kept = { λ h k. ⊤ };

    ghost keeps_itself = { λ h. tt };

    ghost keeps_on = { λ h k l first then. tt };

    ghost keeps_tests = { λ h k kept. refl };

    ghost asks_below = { λ h. stays_below h.asks };

    ghost faults_below = { λ h. stays_below h.faults };

    fn shows(&mut self, dir: &[u8]) -> Result<bool, Failed> {
        self.asks = self.asks.saturating_add(1);
        let Ok(shown) = can_be_listed(self.rt, dir) else {
            return Err(fault(&mut self.faults));
        };
        Ok(shown)
    }

    fn exists(&mut self, path: &[u8], follow: bool) -> Result<bool, Failed> {
        self.asks = self.asks.saturating_add(1);
        let Ok(there) = can_be_looked_up(self.rt, path, follow) else {
            return Err(fault(&mut self.faults));
        };
        Ok(there)
    }
}

#[cfg(test)]
mod tests {
    use super::*;
    use std::os::unix::fs::symlink;
    use std::process;
    use std::test::Fail;

    #[test]
    fn asks_the_host(rt: HostRuntime) -> Result<(), Fail> {
        let mut gate = HostGate::new(rt);
        assert_eq!(rt; gate.shows(b"/proc/self/task"), Ok(true));
        assert_eq!(rt; gate.exists(b"/proc/version", true), Ok(true));
        let long = [b'a'; 5000];
        for missing in [
            b"/nowhere/at/all".as_slice(),
            b"/proc/version/below",
            b"/\xff",
            b"/\0",
            long.as_slice(),
        ] {
            assert_eq!(rt; gate.shows(missing), Ok(false));
            assert_eq!(rt; gate.exists(missing, true), Ok(false));
            assert_eq!(rt; gate.exists(missing, false), Ok(false));
        }
        assert_eq!(rt; gate.shows(b"/proc/version"), Ok(false));

        // A link that leads to itself.
        let looping = format!(in rt.alloc(); "/tmp/host_gate_{}", process::id(rt.process()))?;
        symlink(&rt, &looping, &looping)?;
        assert_eq!(rt; gate.exists(looping.as_bytes(), false), Ok(true));
        assert_eq!(rt; gate.exists(looping.as_bytes(), true), Ok(false));
        assert_eq!(rt; gate.shows(looping.as_bytes()), Ok(false));
        fs::remove_file(&rt, &looping)?;
        Ok(())
    }
}
