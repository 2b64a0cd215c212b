// The slots of the duplicate table: its sizes, the first free place from a hash, and the ids put into slots. A slot is an id + 1 of
// 32 bits, or 0.
#![tactic(auto)]

ghost use Rattle.std.specs.Prelude.{◌≡◌, ◌-◌, ◌<◌};

pub mod filling;
pub mod sizes;
pub mod window;

pub use filling::{free_place, rehash};
pub use sizes::{FIRST_SIZE, is_table_size, load_limit, modulo_size};

/// The id that a slot in use holds.
pub fn slot_id(slot: u32) -> u64
    requires { 0 < slot }
    ensures { result ≡ slot - 1 }
{
    u64::from(slot - 1)
}
