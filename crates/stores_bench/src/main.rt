//! The program `stores_bench`: it makes the stores of an append or a write-back so many times, for bench/stores.py to time.
#![tactic(auto)]

mod pairs;
mod start;
mod task;
mod work;

use crate::task::{Task, task_of};
use std::process::ExitCode;
use std::{env, io};

fn main(rt: HostRuntime) -> ExitCode {
    let Ok(Some(task)) = asked(&rt) else {
        return ExitCode::from(2);
    };
    match print(&rt, task) {
        Ok(()) => ExitCode::from(0),
        Err(_) => ExitCode::from(1),
    }
}

fn asked(rt: &HostRuntime) -> io::Result<Option<Task>> {
    let mut words = Vec::new(rt.alloc());
    for word in env::args(rt)?.skip(1) {
        words.push(word)?;
    }
    Ok(task_of(&words))
}

fn print(rt: &HostRuntime, task: Task) -> anyhow::Result<()> {
    let line = task.line(rt.alloc())?;
    println!(rt; "{line}")?;
    Ok(())
}
