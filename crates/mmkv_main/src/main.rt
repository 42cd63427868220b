//! The program `mmkv`: a command over the stores of a directory.
#![tactic(auto)]

mod words;

ghost use Rattle.std.specs.Prelude.{◌≡◌, [], All, OnOk};

use crate::words::words;
use expiring_map::Bytes;
use file_region::{DirShelf, StdSink, StdSource};
use handlers::{Handler, HandlerStock, Steady, Strategy};
use mmkv_top::{most_openers, run};
use std::alloc::AllocError;
use std::process::ExitCode;

fn main(rt: HostRuntime) -> ExitCode {
    let words = match words(&rt) {
        Ok(words) => words,
        Err(_) => Vec::new(rt.alloc()),
    };
    let directory = match words.first() {
        Some(word) => word.as_slice(),
        None => b"",
    };
    let Ok(directory) = Bytes::copy_of(rt.alloc(), directory) else {
        return ExitCode::from(8);
    };
    match status_of(&rt, &words, directory) {
        Ok(status) => ExitCode::from(status),
        Err(_) => ExitCode::from(8),
    }
}

// The status of a command over a directory. Each opener that it may open may have a handler of any strategy.
fn status_of(rt: &HostRuntime, words: &[Bytes], directory: Bytes) -> Result<u8, AllocError> {
    let alloc = rt.alloc();
    let mut discard: Vec<Box<dyn Handler + Send>> = Vec::new(alloc);
    let mut recover: Vec<Box<dyn Handler + Send>> = Vec::new(alloc);
    let mut leave: Vec<Box<dyn Handler + Send>> = Vec::new(alloc);
    for _ in 0..most_openers(words) {
        add(
            &mut discard,
            Box::new(alloc, Steady::new(alloc, Strategy::Discard))?,
        )?;
        add(
            &mut recover,
            Box::new(alloc, Steady::new(alloc, Strategy::Recover))?,
        )?;
        add(
            &mut leave,
            Box::new(alloc, Steady::new(alloc, Strategy::Leave))?,
        )?;
    }
    let stock = HandlerStock::new(discard, recover, leave);
    let mut shelf = DirShelf::new(rt, directory);
    let mut input = StdSource::new(rt);
    let mut out = StdSink::new(rt);
    Ok(run(alloc, words, &mut shelf, &mut input, &mut out, stock).0)
}

// Adds a handler that was not asked or told anything yet.
fn add(
    all: &mut Vec<Box<dyn Handler + Send>>,
    handler: Box<dyn Handler + Send>,
) -> Result<(), AllocError>
    requires so_far { All (λ h. (told h ≡ []) × (changes_told h ≡ [])) all.old.items }
    requires new { (told handler ≡ []) × (changes_told handler ≡ []) }
    ensures { OnOk result (All (λ h. (told h ≡ []) × (changes_told h ≡ [])) all.new.items) }
{
    all.push(handler)?;
    Ok(())
}
