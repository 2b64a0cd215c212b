// The threshold of a setting in words: as a decimal, rounded up, and its bits as a text's constant has them; and what so many terms below
// it come to.
use crate::EXACT_KIND;
use decimal_thresholds::{BILLION, MOST_TERMS, threshold_billionths, together_billionths};
use std::fmt;
use thresholds::{FIRST_PRUNING_SETTING, LAST_SETTING};

// Billionths, shown as a decimal.
#[derive(Clone, Copy)]
struct Billionths(u64);

impl fmt::Display for Billionths {
    fn fmt<W: fmt::Write>(&self, f: &mut fmt::Formatter<W>) -> fmt::Result {
        let whole = self.0 / BILLION;
        let part = self.0 % BILLION;
        write!(f, "{whole}.{part:09}")
    }
}

/// The threshold below which each of so many dropped terms is, and what they come to. A setting that prunes nothing has no threshold and
/// drops nothing, and a sum has at most 4,096 terms.
pub(crate) fn print_dropped(out: &impl Print, setting: u32, dropped: u64) {
    if setting < FIRST_PRUNING_SETTING || LAST_SETTING < setting || MOST_TERMS < dropped {
        return;
    }
    let decimal = Billionths(threshold_billionths(setting));
    let bits = thresholds::threshold(setting);
    let together = Billionths(together_billionths(setting, dropped));
    let _ = println!(out; "threshold of setting {setting}: below {decimal}, exactly #{bits:016X}");
    let _ = println!(out; "the dropped terms are together below {together}");
    let _ = println!(out; "{} moved by less than that", EXACT_KIND);
}
