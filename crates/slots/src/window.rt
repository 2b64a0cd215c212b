// Slots looked at together for the first empty one, without a branch for each.
ghost use Rattle.std.specs.Prelude.{◌≡◌, ◌+◌, ◌*◌, ◌≤◌, ◌<◌, length};
ghost use Rattle.slots.specs.Insert.{free_window, FirstEmpty};
ghost use Rattle.slots.specs.Window.{quarter, quarter_values, empty_digit, empty_digits};

// How many slots are looked at together.
pub(crate) const FREE_WINDOW: usize = 16;

// A quarter of them.
const QUARTER: usize = 4;

// How many values a quarter's binary digits have.
const QUARTER_VALUES: u32 = 16;

// How many values the window's binary digits have: added to them it is one digit more, so that some digit is 1.
const WINDOW_VALUES: u32 = 65_536;

// A weight if a slot is empty, else 0.
fn weight_if_empty(slot: u32, weight: u32) -> u32
    ensures { (result ≡ empty_digit slot * weight) × (result ≤ weight) }
{
    if slot == 0 { weight } else { 0 }
}

// Four slots from a place on as binary digits, the lowest first: 1 if a slot is empty.
fn empties_of_quarter(slots: &[u32], from: usize) -> u32
    requires { from + quarter ≤ length slots.now }
    ensures { (result ≡ empty_digits quarter slots.now from) × (result < quarter_values) }
{
    weight_if_empty(slots[from], 1)
        + weight_if_empty(slots[from + 1], 2)
        + weight_if_empty(slots[from + 2], 4)
        + weight_if_empty(slots[from + 3], 8)
}

// FREE_WINDOW slots from a place on as binary digits, the lowest first. A sum of this form is compiled to few instructions.
fn empties(slots: &[u32], home: usize) -> u32
    requires { home + free_window ≤ length slots.now }
    ensures { result ≡ empty_digits free_window slots.now home }
{
    let fourth = empties_of_quarter(slots, home + 3 * QUARTER);
    let third = empties_of_quarter(slots, home + 2 * QUARTER);
    let second = empties_of_quarter(slots, home + QUARTER);
    let first = empties_of_quarter(slots, home);
    ((fourth * QUARTER_VALUES + third) * QUARTER_VALUES + second) * QUARTER_VALUES + first
}

// How many slots from a place on come before the first empty one; FREE_WINDOW if none of so many is empty.
pub(crate) fn first_empty(slots: &[u32], home: usize) -> usize
    requires { home + free_window ≤ length slots.now }
    ensures { FirstEmpty free_window slots.now home result }
{
    u32::trailing_zeros(empties(slots, home) + WINDOW_VALUES) as usize
}
