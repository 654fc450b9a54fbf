//! The host's files, to be written.
ghost use Rattle.std.specs.Prelude.{◌≡◌, None, min};
ghost use Rattle.std.proofs.Common.{refl, ◌∙◌};
ghost use Rattle.loc_outside.specs.Causes.{last_count, stays_below};

use crate::host::aside::Aside;
use crate::host::files::fault;
use crate::{Failed, Output, Sink};
use std::fs::File;
use std::io::{BufWriter, Write};
use std::marker::Model;
use std::{io, mem};

/// A name that was begun, and the file that is to get it.
#[derive(Drop)]
struct Pending {
    name: String,
    aside: Aside,
    writer: BufWriter<File>,
}

/// A writer of the file, which is emptied last: where this fails, it is as it was.
fn empty_writer(rt: HostRuntime, aside: &Aside) -> io::Result<BufWriter<File>> {
    let writer = BufWriter::new(rt.alloc(), aside.handle()?)?;
    writer.get_ref().set_len(0)?;
    Ok(writer)
}

/// Lets go of a writer, without what it holds back.
fn let_go(writer: BufWriter<File>) {
    let (_file, _held_back) = writer.into_parts();
}

/// Makes the file that is to get this name.
fn make(rt: HostRuntime, name: &str) -> io::Result<Pending> {
    let mut path = String::from_str(rt.alloc(), name)?;
    path.push_str(".new")?;
    let name = String::from_str(rt.alloc(), name)?;
    let aside = Aside::make(rt, path, &name)?;
    match empty_writer(rt, &aside) {
        Ok(writer) => Ok(Pending {
            name,
            aside,
            writer,
        }),
        Err(error) => {
            aside.remove(rt);
            Err(error)
        }
    }
}

/// Empties a file that was begun, and what is held back of it.
fn empty(rt: HostRuntime, pending: &mut Pending) -> io::Result<()> {
    let writer = empty_writer(rt, &pending.aside)?;
    let_go(mem::replace(&mut pending.writer, writer));
    Ok(())
}

/// Lets go of what was begun, and removes its file.
fn discard(rt: HostRuntime, pending: Pending) {
    let Pending {
        name: _,
        aside,
        writer,
    } = pending;
    let_go(writer);
    aside.remove(rt);
}

/// Begins a name. The file in hand is used again where the name is its own.
fn begin(rt: HostRuntime, pending: &mut Option<Pending>, name: &str) -> io::Result<()> {
    if let Some(held) = pending {
        if held.name.as_str() == name && held.aside.is_there(rt) {
            return empty(rt, held);
        }
    }
    let begun = make(rt, name)?;
    if let Some(old) = mem::replace(pending, Some(begun)) {
        discard(rt, old);
    }
    Ok(())
}

/// Writes out what is held back, and puts the file in the place of the one that it is to replace.
fn store(rt: HostRuntime, pending: &mut Pending) -> io::Result<()> {
    pending.writer.flush()?;
    pending.aside.replace(rt, &pending.name)
}

/// The host's files, to be written. A contract sees the counts of names begun and of faults.
///
/// The bytes of a name go through a buffer to a file of that name with `.new` added, which this output makes and locks. A
/// commit writes the buffer out, gives the file the owner and the mode of the one that it is to replace, syncs it and
/// renames it, so the file of that name is the old one or the whole new one at any time. A new file has mode 0644, less
/// the umask.
///
/// While one output has the file `.new`, no other can begin the name. What a run that was killed left there is removed.
/// What is there and is no regular file, or has another name, is refused, and nothing is written to it.
///
/// What was begun and not committed is removed when another name is begun or the output is dropped. A name whose last part
/// has more than 251 bytes can't be begun, since a part has at most 255.
pub struct HostOutput {
    rt: HostRuntime,
    pending: Option<Pending>,
    begins: u64,
    faults: u64,
}

impl Drop for HostOutput {
    fn drop(self) {
        let HostOutput {
            rt,
            pending,
            begins: _,
            faults: _,
        } = self;
        if let Some(pending) = pending {
            discard(rt, pending);
        }
    }
}

impl Model for HostOutput {
    ghost use Rattle.loc_outside.specs.Host.{OutputCounts};

    ghost Value = { OutputCounts };

    ghost view = { λ h. record { begins = h.begins; faults = h.faults } };
}

impl HostOutput {
    /// The files of this host, of which none was begun.
    pub fn new(rt: HostRuntime) -> HostOutput
        ensures { result ≡ record { begins = 0; faults = 0 } }
    {
        HostOutput {
            rt,
            pending: None,
            begins: 0,
            faults: 0,
        }
    }
}

impl Sink for HostOutput {
    ghost taken = { λ h. None };

    ghost faults = { λ h. min h.faults last_count };

    ghost kept = { λ h k. min k.begins last_count ≡ min h.begins last_count };

    ghost keeps_itself = { λ h. refl };

    ghost keeps_on = { λ h k l first then. then ∙ first };

    ghost faults_below = { λ h. stays_below h.faults };

    fn write(&mut self, piece: &[u8]) -> Result<usize, Failed> {
        let answer = match &mut self.pending {
            Some(pending) => pending.writer.write(piece).ok(),
            None => None,
        };
        match answer {
            Some(count) if count > 0 || piece.is_empty() => Ok(count),
            _ => Err(fault(&mut self.faults)),
        }
    }
}

impl Output for HostOutput {
    ghost held = { λ h. None };

    ghost begins = { λ h. min h.begins last_count };

    ghost keeps_begins = { λ h k kept. kept };

    ghost keeps_begun = { λ h k kept. refl };

    ghost keeps_held = { λ h k bytes kept grows. refl };

    fn begin(&mut self, name: &str) -> Result<(), Failed> {
        let Ok(()) = begin(self.rt, &mut self.pending, name) else {
            return Err(fault(&mut self.faults));
        };
        self.begins = self.begins.saturating_add(1);
        Ok(())
    }

    fn commit(&mut self) -> Result<(), Failed> {
        let stored = match &mut self.pending {
            Some(pending) => store(self.rt, pending).is_ok(),
            None => false,
        };
        if !stored {
            return Err(fault(&mut self.faults));
        }
        self.pending = None;
        Ok(())
    }
}
