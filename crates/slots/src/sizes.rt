// The sizes of the table, which starts at 64 slots and doubles before an insertion that would make the count exceed
// floor(size·7/10).
ghost use Rattle.std.specs.Prelude.{◌≡◌, ◌%◌};
ghost use Rattle.definitions.specs.Says.{Says};
ghost use Rattle.definitions.specs.Intern.{capacity};
ghost use Rattle.slots.specs.Table.{TableSize};

/// The size of a table that has not grown.
pub const FIRST_SIZE: usize = 64;

/// floor(size·7/10): a half and a fifth of a size, which is even.
pub fn load_limit(size: usize) -> usize
    requires { TableSize size }
    ensures { result ≡ capacity size }
{
    size / 2 + size / 5
}

/// Whether a size is a power of two from 64 up. The loop counts nothing: what it halves is what ends it.
pub fn is_table_size(size: usize) -> bool
    ensures { Says result (TableSize size) }
{
    let mut rest = size;
    while FIRST_SIZE < rest {
        if rest % 2 != 0 {
            return false;
        }
        rest = rest / 2;
    }
    rest == FIRST_SIZE
}

/// A number modulo the size.
pub fn modulo_size(x: usize, size: usize) -> usize
    requires { TableSize size }
    ensures { result ≡ x % size }
{
    x & (size - 1)
}
