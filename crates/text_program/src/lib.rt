// A typed text as a program: the scan says whether it is in the language, and readers that call each other emit its words.
#![tactic(auto)]

mod checking;
mod numbers;
mod places;
mod readers;
mod scanning;
mod words;

pub use checking::{any_nan, compile};
pub use numbers::bits_at;
pub use places::{name_end, name_starts};
pub use words::{FIRST_OPERATOR, operand_count};
