// Lists of calls as words, run by `history::replay`.
use history::Run;
use refusal::Refusal;
use script_calls::showing::print_result;
use script_calls::state::{LIST_WORDS, Now};
use scripts::lines::Values;
use scripts::printing::refused;
use scripts::tokens::narrow;

// The words of a line put behind the list; what has no place there is left out.
fn append(now: &mut Now, values: &Values) {
    let numbers = values.list.iter().take(values.count).skip(1);
    for (word, number) in now.list.iter_mut().skip(now.written).zip(numbers) {
        *word = narrow(*number);
    }
    let more = values.count.saturating_sub(1);
    now.written = now.written.saturating_add(more).min(LIST_WORDS);
}

fn print_replayed(out: &impl Print, replayed: Result<Run, Refusal>) {
    match replayed {
        Ok(run) => {
            print_result(out, run.last);
            let _ = print!(out; " calls {} words {}", run.calls, run.words);
        }
        Err(refusal) => refused(out, refusal.number()),
    }
}

// Words put behind the list, which is then run whole on a fresh store.
pub(crate) fn replay(
    out: &impl Print,
    nodes: &mut [u64],
    slots: &mut [u32],
    entries: &mut [u8],
    now: &mut Now,
    values: &Values,
) {
    append(now, values);
    let calls = &now.list[..now.written.min(LIST_WORDS)];
    print_replayed(out, history::replay(nodes, slots, entries, calls));
}
