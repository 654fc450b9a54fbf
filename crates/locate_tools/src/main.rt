//! File-name database tools: `updatedb`, `locate`, `convert` and `exercise`.
#![tactic(auto)]

mod answer;
mod call;
mod convert_run;
#[cfg(test)]
mod convert_tests;
#[cfg(test)]
mod damage_tests;
mod databases;
mod exercise_run;
#[cfg(test)]
mod exercise_tests;
#[cfg(test)]
mod format_tests;
mod lines;
mod locate_matcher;
mod locate_run;
mod messages;
mod regex_matcher;
#[cfg(test)]
mod regex_tests;
mod regexes;
mod run;
mod statistics_text;
mod telling;
#[cfg(test)]
mod tests;
mod updatedb_run;
#[cfg(test)]
mod updatedb_tests;

use answer::Cause;
use call::Call;
use loc_outside::{HostErr, HostFiles, HostGate, HostOut, HostOutput, HostTree};
use messages::tell_cause;
use path_order::Stamp;
use std::env;
use std::env::VarError;
use std::io::ErrorKind;
use std::process::ExitCode;
use std::time::{SystemTime, UNIX_EPOCH};

/// The words after the program's own name, or the cause for which there are none: a word that is not UTF-8, or no
/// memory left.
fn given_words(rt: HostRuntime) -> Result<Vec<String>, Cause> {
    match env::args(&rt) {
        Ok(words) => match words.skip(1).collect(rt.alloc()) {
            Ok(words) => Ok(words),
            Err(_) => Err(Cause::OutOfMemory),
        },
        Err(error) if error.kind() == ErrorKind::OutOfMemory => Err(Cause::OutOfMemory),
        Err(_) => Err(Cause::Usage),
    }
}

/// The environment's `LOCATE_PATH`, where it is set, or the cause for which it can't be had, as with a word.
fn given_path(rt: HostRuntime) -> Result<Option<String>, Cause> {
    match env::var(&rt, "LOCATE_PATH") {
        Ok(path) => Ok(Some(path)),
        Err(VarError::NotPresent) => Ok(None),
        Err(VarError::NotUnicode) => Err(Cause::Usage),
        Err(VarError::OutOfMemory) => Err(Cause::OutOfMemory),
    }
}

/// The clock's moment. Where it tells none, or one before 1970, it is the zero stamp, by which every time is recent.
fn moment(rt: HostRuntime) -> Stamp {
    let Ok(now) = SystemTime::now(&rt) else {
        return Stamp::zero();
    };
    let Ok(since) = now.duration_since(UNIX_EPOCH) else {
        return Stamp::zero();
    };
    match Stamp::new(since.as_secs(), since.subsec_nanos()) {
        Some(stamp) => stamp,
        None => Stamp::zero(),
    }
}

/// The call that the process was started with.
fn given_call(rt: HostRuntime) -> Result<Call, Cause> {
    let words = given_words(rt)?;
    let path = given_path(rt)?;
    Ok(Call::new(words, moment(rt), path))
}

fn main(rt: HostRuntime) -> ExitCode {
    let mut err = HostErr::new(rt);
    let call = match given_call(rt) {
        Ok(call) => call,
        Err(cause) => {
            let _ = tell_cause(&mut err, "locate_tools", b"", cause);
            return ExitCode::from(cause.status(None));
        }
    };
    let mut reader = HostFiles::new(rt);
    let mut tree = HostTree::new(rt);
    let mut gate = HostGate::new(rt);
    let mut output = HostOutput::new(rt);
    let mut out = HostOut::new(rt);
    let ending = run::run(
        rt.alloc(),
        &call,
        &mut reader,
        &mut tree,
        &mut gate,
        &mut output,
        &mut out,
        &mut err,
    );
    ExitCode::from(ending.status)
}
