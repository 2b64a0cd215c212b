// How answers are written.
use arena::DagArena;
use calls::{CallResult, Reply};
use scripts::printing::refused;
use store_calls::Answer;

fn print_answer(out: &impl Print, answer: Answer) {
    match answer {
        Answer::Stored(id) => {
            let _ = print!(out; " {id}");
        }
        Answer::Simplified(walk) => {
            let spent = if walk.spent { " spent" } else { "" };
            let _ = print!(out; "{spent} {} in steps {}", walk.id, walk.steps);
        }
        Answer::Pruned(prune) => {
            let _ = print!(out;
                " {} kept {} dropped {}",
                prune.id, prune.kept, prune.dropped
            );
        }
        Answer::Refused(refusal) => refused(out, refusal),
    }
}

fn print_name_reply(out: &impl Print, answer: names::NameReply, name: [u8; 32]) {
    match answer {
        names::NameReply::Numbered(number) => {
            let _ = print!(out; " {number}");
        }
        names::NameReply::Unknown => {
            let _ = print!(out; " unknown");
        }
        names::NameReply::Named(length) => {
            let _ = print!(out; " ");
            if let Some(name) = name.get(..length) {
                let _ = out.write_all(name);
            }
        }
        names::NameReply::Refused(refusal) => refused(out, refusal),
    }
}

/// An answer, and the numbers of nodes, slots and names after it.
pub fn print_result(out: &impl Print, last: CallResult) {
    match last.reply {
        None => {
            let _ = print!(out; " nothing");
        }
        Some(Reply::Store(answer)) => print_answer(out, answer),
        Some(Reply::Names(answer)) => print_name_reply(out, answer, last.name),
    }
    let DagArena { count, size } = last.arena;
    let _ = print!(out; "; nodes {count} slots {size} names {}", last.names);
}
