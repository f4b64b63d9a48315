//! Rows of whole runs: each is run on a new machine, and what it prints and how it ends is printed.
//! Then a session that polls its solve, and the scripts of drills.
#![tactic(auto)]

mod opening;
mod playing;
mod poller;
mod polling;
mod row;
mod running;
mod scripts;
mod setting;
mod user;
mod words;

use playing::print_row;
use polling::print_polled;
use row::Row;
use scripts::print_scripts;
use std::sync::Wait;
use std::thread::Threads;
use std::{fs, io};

// The files of rows. What stands before the first row of each is for its readers.
const FILES: [&str; 3] = ["sessions.txt", "files.txt", "settings.txt"];

fn main(rt: HostRuntime) -> io::Result<()> {
    for name in FILES {
        let text = fs::read_to_string(&rt, name)?;
        print_rows(&rt, &rt, text.as_str())?;
    }
    print_polled(&rt, &rt)?;
    print_scripts(&rt)
}

fn print_rows<R: Threads + Wait + Sync>(
    rt: &HostRuntime,
    threads: &R,
    text: &str,
) -> io::Result<()> {
    for part in text.split("\n# ").skip(1) {
        match Row::of(part) {
            Some(row) => print_row(rt, threads, &row)?,
            None => println!(rt; "no row: {part}")?,
        }
    }
    Ok(())
}
