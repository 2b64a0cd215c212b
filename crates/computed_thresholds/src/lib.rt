// The threshold of each setting that prunes, 20 to 200, computed from whole numbers alone.
#![tactic(auto)]

mod limbs;

ghost use Rattle.std.specs.Prelude.{◌≡◌, ◌+◌, ◌≤◌, ◌<◌};
ghost use Rattle.thresholds.specs.Nearest.{Nearest};
ghost use Rattle.thresholds.specs.Thresholds.{half_hundredths, first_pruning_setting, last_setting, threshold};
ghost use Rattle.computed_thresholds.specs.Limbs.{lowest, highest};
ghost use Rattle.computed_thresholds.specs.Middles.{Compared};

use limbs::{LIMBS, multiply_by_power};

// The patterns of 2^-13 and 2^-3: every threshold lies between.
const LOWEST: u64 = 0x3f20_0000_0000_0000;

const HIGHEST: u64 = 0x3fc0_0000_0000_0000;

// The leading one of a normal number, which its pattern leaves out.
const HIDDEN: u64 = 0x10_0000_0000_0000;
// Setting n stands for 10^((SLOPE · n - OFFSET) / ROOT).
const SLOPE: u64 = 3;

const OFFSET: u64 = 800;

const ROOT: u64 = 200;
// Powers of ten are multiplied in sixteen at a time.
const TENS_AT_ONCE: u64 = 16;

const TENS: u64 = 10_000_000_000_000_000;
// A middle is m · 2^(field - 1076), and 2^200 is 20 limbs of ten bits.
const MIDDLE_EXPONENT: u64 = 1076;

const LIMBS_OF_ROOT: u64 = 20;

// Whether the middle between a pattern's number and the next higher one is at least the setting's number. With the middle
// as m · 2^(field - 1076), m odd, that is whether m^200 · 10^(800-3n) is at least 2^(200 · (1076 - field)), which is whether it
// has more limbs of ten bits than 20 · (1076 - field).
fn middle_reaches(n: u64, pattern: u64) -> bool
    requires prunes { (first_pruning_setting ≤ n) × (n ≤ last_setting) }
    requires in_range { (lowest ≤ pattern) × (pattern < highest) }
    ensures { Compared n pattern result }
{
    let tens = OFFSET - SLOPE * n;
    let middle = 2 * (HIDDEN + pattern % HIDDEN) + 1;
    let field = pattern / HIDDEN;
    let mut limbs = [0u64; LIMBS];
    limbs[0] = 1;
    let sixteens = multiply_by_power(&mut limbs, 1, TENS, tens / TENS_AT_ONCE);
    let powers = multiply_by_power(&mut limbs, sixteens, 10, tens % TENS_AT_ONCE);
    let used = multiply_by_power(&mut limbs, powers, middle, ROOT);
    LIMBS_OF_ROOT * (MIDDLE_EXPONENT - field) < used as u64
}

/// The pattern of the number nearest 10^((3n-800)/200): the least whose middle with the next reaches it.
pub fn nearest_pattern(n: u64) -> u64
    requires { (first_pruning_setting ≤ n) × (n ≤ last_setting) }
    ensures { Nearest half_hundredths n result × (result ≡ threshold n) }
{
    let mut below = LOWEST;
    let mut reached = HIGHEST;
    while 1 < reached - below {
        let between = below + (reached - below) / 2;
        if middle_reaches(n, between) {
            reached = between;
        } else {
            below = between;
        }
    }
    reached
}
