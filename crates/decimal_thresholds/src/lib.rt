// The thresholds of settings as decimals: in whole billionths, rounded up, so that what is below a threshold is below its decimal.
#![tactic(auto)]

ghost use Rattle.std.specs.Prelude.{◌≡◌, ◌*◌, ◌≤◌};
ghost use Rattle.thresholds.specs.Thresholds.{first_pruning_setting, last_setting, threshold};
ghost use Rattle.decimal_thresholds.specs.Billionths.{Between, billionths, most_terms};

pub const BILLION: u64 = 1_000_000_000;

// The leading digit of a binary64 number, 2^52, and half its digits, 2^26.
const LEADING_DIGIT: u64 = 4_503_599_627_370_496;

const HALF: u64 = 67_108_864;

// The exponent's field at which a number of the upper half is whole.
const WHOLE: u64 = 1_049;

// A number from 2^-13 to 1 by its bit pattern, in billionths, rounded up.
fn rounded_up(pattern: u64) -> u64
    requires { Between pattern }
    ensures { result ≡ billionths pattern }
{
    let significand = LEADING_DIGIT + pattern % LEADING_DIGIT;
    let scaled = significand / HALF * BILLION + significand % HALF * BILLION / HALF;
    (scaled >> (WHOLE - pattern / LEADING_DIGIT)) + 1
}

/// The threshold of a setting that prunes, in billionths, rounded up.
pub fn threshold_billionths(setting: u32) -> u64
    requires prunes { first_pruning_setting ≤ setting }
    requires is_setting { setting ≤ last_setting }
    ensures { result ≡ billionths (threshold setting) }
{
    rounded_up(thresholds::threshold(setting))
}

/// The most terms that a sum may have for a prune.
pub const MOST_TERMS: u64 = 4_096;

/// So many thresholds of a setting that prunes, in billionths: above that many times the threshold (`TogetherRoundedUp`).
pub fn together_billionths(setting: u32, count: u64) -> u64
    requires prunes { first_pruning_setting ≤ setting }
    requires is_setting { setting ≤ last_setting }
    requires is_of_a_sum { count ≤ most_terms }
    ensures { result ≡ count * billionths (threshold setting) }
{
    count * threshold_billionths(setting)
}
