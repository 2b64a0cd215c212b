// Simplifies a formula that is typed on standard input, prunes it by the setting that is its argument (without one it is not pruned), and
// prints it as text, with the walk's steps, the terms kept and dropped, the threshold, a bound on the dropped ones and how far the value
// may have moved; or the refusal in words. A text that could not be read to its end is not taken, since the part that was read could be a
// formula too.
#![tactic(auto)]

mod threshold;

use arena::NODE_WORDS;
use definitions::refusals::{BAD_SETTING, NO_NAME_PLACE, NO_TEXT, TEXT_TOO_LONG, TOO_MANY_TERMS};
use std::env::{Env, FillError};
use std::str;
use text_language::{BAD_TEXT, MOST_BYTES, NESTED_TOO_DEEP, NOT_A_NUMBER, OUTSIDE_LANGUAGE};
use threshold::print_dropped;
use write_back::{DEPTH, Written};

// One byte more than the longest text, and a line feed after it.
const INPUT_BYTES: usize = MOST_BYTES + 2;

// The program's store and name list.
const WORDS: usize = 16_384 * NODE_WORDS;

const SLOTS: usize = 32_768;

const ENTRIES: usize = 4_096 * 33;

// The formulas of which it is proved how far their value may have moved: those of the exact kind.
const EXACT_KIND: &str =
    "if the text has no / and no ^ and its numbers keep to the limits of the exact kind (docs/REFERENCE.md), its value has";

// A setting that there is not: a prune by it is refused in its turn, after what is wrong with the text.
const NO_SUCH_SETTING: u32 = u32::MAX;

// What a refusal's number says.
fn words_of(number: u64) -> &'static str {
    match number {
        BAD_TEXT => "there is no text, or it has over 8,192 bytes",
        BAD_SETTING => "there is no such setting",
        NOT_A_NUMBER => "a constant is not a number",
        OUTSIDE_LANGUAGE => {
            "this is not a formula: look for a sign, a name or a bracket that is missing or too much"
        }
        NESTED_TOO_DEEP => "brackets, minus signs and powers are nested over 64 deep",
        NO_TEXT => "the formula that came out has no text",
        TEXT_TOO_LONG => "the formula that came out is too long or too deep for a text",
        TOO_MANY_TERMS => "the sum has over 4,096 terms",
        NO_NAME_PLACE => "there are over 4,096 names",
        _ => "the formula is too large for this program",
    }
}

// What the output does not take is lost, here and below; the rest is printed all the same.
fn print_refusal(out: &impl Print, number: u64) {
    let _ = println!(out; "refused {number}: {}", words_of(number));
}

// Without a threshold, and where nothing was dropped, the value is what it was.
fn print_unmoved(out: &impl Print) {
    let _ = println!(out; "{} not moved", EXACT_KIND);
}

// The walk's steps, and what may have stayed as it was typed.
fn print_steps(out: &impl Print, written: Written) {
    let _ = print!(out; "\nsteps {}", written.steps);
    if written.spent {
        let _ = print!(out; ", the budget is used up: not simplified");
    }
    if written.deep {
        let _ = print!(out;
            ", {} levels deep: parts of it may have stayed as typed",
            DEPTH
        );
    }
    let _ = println!(out);
}

// The terms kept and dropped, a bound on what was dropped, and how far the value may have moved.
fn print_pruned(out: &impl Print, setting: u32, kept: u64, dropped: u64) {
    let _ = println!(out; "kept {kept}, dropped {dropped}");
    if dropped == 0 {
        let _ = println!(out; "no term was dropped");
        print_unmoved(out);
    } else {
        print_dropped(out, setting, dropped);
    }
}

fn print_written(out: &impl Print, written: Written, setting: Option<u32>, text: &[u8]) {
    if let Some(formula) = text.get(..written.length) {
        let _ = out.write_all(formula);
    }
    print_steps(out, written);
    match setting {
        Some(setting) => print_pruned(out, setting, written.kept, written.dropped),
        None => {
            let _ = println!(out; "not pruned");
            print_unmoved(out);
        }
    }
}

// A text, on a store and a name list of the program's own.
fn run(out: &impl Print, typed: &[u8], setting: Option<u32>) {
    let mut nodes = [0; WORDS];
    let mut slots = [0; SLOTS];
    let mut entries = [0; ENTRIES];
    let mut text = [0; MOST_BYTES];
    match builder::fresh(&nodes, &mut slots) {
        Ok(arena) => {
            let answered = write_back::answer(
                typed,
                setting,
                &mut nodes,
                &mut slots,
                arena,
                &mut entries,
                0,
                &mut text,
            );
            match answered.outcome {
                Ok(written) => print_written(out, written, setting, &text),
                Err(number) => print_refusal(out, number),
            }
        }
        Err(refusal) => print_refusal(out, refusal.number()),
    }
}

// The setting that a word spells, in digits alone: `parse` would take a plus sign too.
fn setting_of(word: &[u8]) -> Option<u32> {
    if word.starts_with(b"+") {
        return None;
    }
    str::from_utf8(word).ok()?.parse().ok()
}

// The setting that is the program's argument, if there is one. A word that spells none, and more words than one, are a setting that there is
// not.
fn setting_given(rt: &impl Env) -> Option<u32> {
    let mut word = [0; 64];
    let setting = match rt.arg(1, &mut word) {
        Err(FillError::NotPresent) => return None,
        Ok(length) => setting_of(&word[..length]),
        Err(_) => None,
    };
    match rt.arg(2, &mut [0; 1]) {
        Err(FillError::NotPresent) => Some(setting.unwrap_or(NO_SUCH_SETTING)),
        _ => Some(NO_SUCH_SETTING),
    }
}

fn main(rt: HostRuntime) {
    let mut input = [0; INPUT_BYTES];
    let Some(length) = whole_input::read_whole(&mut rt.stdin(), &mut input) else {
        let _ = eprintln!(rt; "formula: the text could not be read to its end");
        return;
    };
    let typed = &input[..length];
    let text = typed.strip_suffix(b"\n").unwrap_or(typed);
    run(&rt, text, setting_given(&rt));
}
