// Words, slots and bytes, shown and set.
use scripts::tokens::{low_byte, narrow};
use std::fmt::Display;

/// A value set at a place, if the list has it.
pub fn set<T: Copy>(list: &mut [T], at: usize, value: T) {
    if at < list.len() {
        list[at] = value;
    }
}

/// Every word, slot and byte set to a value.
pub fn set_all(nodes: &mut [u64], slots: &mut [u32], entries: &mut [u8], value: u64) {
    nodes.fill(value);
    slots.fill(narrow(value));
    entries.fill(low_byte(value));
}

/// The value at a place; where an end is given, all from there on and before it.
pub fn show<T: Display>(out: &impl Print, list: &[T], from: usize, end: usize) {
    let end = end.max(from.saturating_add(1)).min(list.len());
    for at in from..end {
        let _ = print!(out; " {}", list[at]);
    }
}
