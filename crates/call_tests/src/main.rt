// Runs scripts of calls. The arguments name the files, which stand in data/. A line that begins with a blank is a command; any other is a
// title or says what the next commands show. Each line is written as it stands, and behind a command what it answers and leaves. What is
// written is held to the file `stdout`; docs/ARCHITECTURE.md has the commands.
#![tactic(auto)]

mod lists;

use arena::DagArena;
use script_calls::state::Now;
use script_calls::{calling, writing};
use script_store::{applying, damage, filling, listing};
use scripts::lines;
use scripts::lines::{BLANK, Command};
use scripts::memory::{BYTES, SLOTS, WORDS};
use scripts::tokens::{low_byte, narrow};
use std::env::{Env, FillError};
use std::io::ErrorKind;
use std::rt::Files;
use std::{fs, io, str};

// The bytes of the longest script.
const SCRIPT_BYTES: usize = 262_144;

// The bytes of the longest path.
const PATH_BYTES: usize = 4_096;

// A command on what is lent.
fn perform(
    out: &impl Print,
    nodes: &mut [u64],
    slots: &mut [u32],
    entries: &mut [u8],
    now: &mut Now,
    line: &[u8],
    command: Command,
) {
    if let Command::Call(call) = command {
        calling::run(out, nodes, slots, entries, now, line, call);
        return;
    }
    let values = lines::numbers(line, 0);
    let list = values.list;
    let at = list[1] as usize;
    let value = list[2];
    match command {
        // Done above.
        Command::Call(_) => {}
        Command::Repeat => now.turns = narrow(list[1]),
        Command::Fresh => now.refresh(out, nodes, slots),
        Command::Apply => now.arena = applying::apply(out, nodes, slots, now.arena, list),
        Command::Replay => lists::replay(out, nodes, slots, entries, now, &values),
        Command::Lend => {
            now.words = list[1] as usize;
            now.places = list[2] as usize;
            now.bytes = list[3] as usize;
        }
        Command::Counts => {
            now.arena = DagArena {
                count: list[1],
                size: list[2] as usize,
            };
            now.names = list[3] as usize;
        }
        Command::List => {
            let end = if list[2] == 0 {
                now.arena.count
            } else {
                list[2]
            };
            listing::between(out, nodes, slots, now.arena, list[1], end);
        }
        Command::SetWord => damage::set(nodes, at, value),
        Command::SetSlot => damage::set(slots, at, narrow(value)),
        Command::SetByte => damage::set(entries, at, low_byte(value)),
        Command::Fill => damage::set_all(nodes, slots, entries, list[1]),
        Command::Rehash => filling::rehash(nodes, narrow(list[1])),
        Command::Refill => filling::refill(nodes, slots, at, narrow(value)),
        Command::Word => damage::show(out, nodes, at, 0),
        Command::Slot => damage::show(out, slots, at, value as usize),
        Command::Write => {
            writing::write(
                out,
                nodes,
                slots,
                entries,
                now,
                narrow(list[1]),
                value as usize,
            );
        }
    }
}

// A command on the parts of the memory that are lent; behind a call, whether the whole memory is as it was. The three lists are no struct:
// two fields cannot be lent behind one reference in a proof.
fn run_command(
    out: &impl Print,
    nodes: &mut [u64; WORDS],
    slots: &mut [u32; SLOTS],
    entries: &mut [u8; BYTES],
    now: &mut Now,
    line: &[u8],
    command: Command,
) {
    let nodes_before = *nodes;
    let slots_before = *slots;
    let entries_before = *entries;
    perform(
        out,
        &mut nodes[..now.words.min(WORDS)],
        &mut slots[..now.places.min(SLOTS)],
        &mut entries[..now.bytes.min(BYTES)],
        now,
        line,
        command,
    );
    if let Command::Call(_) = command {
        let unchanged = *nodes == nodes_before
            && *slots == slots_before
            && *entries == entries_before;
        if unchanged {
            let _ = print!(out; " unchanged");
        }
    }
}

// Every line of a script, from an empty memory on.
fn run(out: &impl Print, script: &[u8]) {
    let mut nodes = [0; WORDS];
    let mut slots = [0; SLOTS];
    let mut entries = [0; BYTES];
    let mut now = Now::new();
    for piece in script.split_inclusive(|byte| *byte == b'\n') {
        let line = piece.strip_suffix(b"\n").unwrap_or(piece);
        let _ = out.write_all(line);
        if line.first() == Some(&BLANK) {
            let _ = print!(out; " ->");
            match Command::of_line(line) {
                Ok(command) => run_command(
                    out,
                    &mut nodes,
                    &mut slots,
                    &mut entries,
                    &mut now,
                    line,
                    command,
                ),
                Err(_) => {
                    let _ = print!(out; " no such command");
                }
            }
        }
        let _ = println!(out);
    }
}

fn run_file<R: Files + Print>(rt: &R, path: &str) -> io::Result<()> {
    let mut file = fs::open(rt, path)?;
    let mut script = [0; SCRIPT_BYTES];
    let size = whole_input::fill(&mut file, &mut script)?;
    run(rt, &script[..size]);
    Ok(())
}

fn main(rt: HostRuntime) -> io::Result<()> {
    for argument in 1..usize::MAX {
        let mut path = [0; PATH_BYTES];
        let length = match rt.arg(argument, &mut path) {
            Ok(length) => length,
            Err(FillError::NotPresent) => break,
            Err(_) => return Err(io::Error::from(ErrorKind::InvalidFilename)),
        };
        let Ok(name) = str::from_utf8(&path[..length]) else {
            return Err(io::Error::from(ErrorKind::InvalidFilename));
        };
        run_file(&rt, name)?;
    }
    Ok(())
}
