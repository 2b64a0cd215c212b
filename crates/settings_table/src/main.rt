// Prints the thresholds of settings 20 to 200, by rising setting, 16 capital hex digits a line, computed from whole numbers alone.
#![tactic(auto)]

ghost use Rattle.std.specs.Prelude.{[], ◌∷◌, ◌++◌, ◌≤◌};
ghost use Rattle.definitions.specs.Listing.{hex, line_feed};
ghost use Rattle.thresholds.specs.Thresholds.{first_pruning_setting, last_setting, threshold};
ghost use Rattle.listing_lines.specs.Line.{Holds};

use computed_thresholds::nearest_pattern;
use listing_lines::{Line, hex_line};
use thresholds::{FIRST_PRUNING_SETTING, LAST_SETTING};

// The line of a setting; `{:016X}` would print the same, and no clause could say so.
fn table_line(n: u64) -> Line
    requires { (first_pruning_setting ≤ n) × (n ≤ last_setting) }
    ensures { Holds (hex (threshold n) ++ (line_feed ∷ [])) result }
{
    hex_line(nearest_pattern(n))
}

// What the output does not take is lost; the lines after it are printed all the same.
fn print_line(out: &impl Print, n: u64)
    requires { (first_pruning_setting ≤ n) × (n ≤ last_setting) }
{
    let line = table_line(n);
    let bytes = line.bytes;
    let length = line.length;
    let _ = out.write_all(&bytes[..length]);
}

fn main(rt: HostRuntime) {
    for n in u64::from(FIRST_PRUNING_SETTING)..=u64::from(LAST_SETTING) {
        print_line(&rt, n);
    }
}
