//! Reads a pattern.
ghost use Rattle.std.specs.Prelude.{◌≡◌, ◌⊎◌, Err, IsOkAnd, MatchResult, true};
ghost use Rattle.posix_regex.specs.declared.fault.RegexCause.TheVariants.{OutOfMemory};
ghost use Rattle.posix_regex.specs.Fragment.{Stands};
ghost use Rattle.posix_regex.specs.Pattern.{nothing_read, read_from};
ghost use Rattle.posix_regex.specs.Reader.{no_memory};

use crate::fault::{RegexCause, RegexFault};
use crate::fragment::Fragment;
use crate::reader::Reader;
use crate::token::{bare_after, begins_after, read_token};
use std::alloc::Global;

/// The fault of a cause at a place; out of memory has the place 0.
fn fault_of(place: usize, cause: RegexCause) -> RegexFault
    ensures cause { result.cause ≡ cause }
    ensures none { cause ≡ OutOfMemory → result.place ≡ 0 }
    ensures place { (cause ≡ OutOfMemory) ⊎ (result.place ≡ place) }
{
    match cause {
        RegexCause::OutOfMemory => RegexFault { place: 0, cause },
        _ => RegexFault {
            place: place as u64,
            cause,
        },
    }
}

/// The compiled pattern, whose size is not judged yet.
pub(crate) fn read_pattern(
    alloc: Global,
    pattern: &[u8],
    extended: bool,
    fold: bool,
) -> Result<Fragment, RegexFault>
    ensures { MatchResult result
        (λ f. IsOkAnd (read_from extended fold 0 0 pattern.now true true nothing_read) (λ e. Stands f e))
        (λ fault. (fault ≡ no_memory) ⊎ (read_from extended fold 0 0 pattern.now true true nothing_read ≡ Err fault)) }
{
    let mut reader = Reader::new(alloc);
    let mut begins = true;
    let mut bare = true;
    let mut at = 0;
    while at < pattern.len() {
        let (token, taken) = match read_token(extended, fold, begins, bare, &pattern[at..]) {
            Ok(read) => read,
            Err((offset, cause)) => {
                return Err(RegexFault {
                    place: (at + offset) as u64,
                    cause,
                });
            }
        };
        reader = match reader.add_token(alloc, at, token) {
            Ok(more) => more,
            Err(cause) => return Err(fault_of(at, cause)),
        };
        begins = begins_after(token);
        bare = bare_after(token);
        at += taken;
    }
    reader.finish(alloc)
}
