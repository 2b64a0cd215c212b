// FNV-1a, 64 bits, modulo 2^64, in place of the Rust's rapidhash: over the kind byte, the payload (8 bytes) and each child
// (4 bytes), big-endian.
#![tactic(auto)]

ghost use Rattle.std.specs.Prelude.{◌≡◌, ◌*◌, ◌%◌, ◌^◌, ℕ, [], ◌∷◌, map};
ghost use Rattle.hash.specs.Fnv.{offset_basis, printed, fnv_from, bytes32, bytes64, children_bytes, node_hash_of};

use std::num::wrapping_add_u64;

const OFFSET_BASIS: u64 = 14_695_981_039_346_656_037;

const BYTE: u64 = 256;

const TWO_TO_16: u64 = 65_536;

const TWO_TO_24: u64 = 16_777_216;

const TWO_TO_32: u64 = 4_294_967_296;

// h times 179, modulo 2^64. Rattle has no product that wraps: 179 is 2^7 + 2^5 + 2^4 + 2 + 1, and each product is
// added in turn.
fn wrapping_mul_179(h: u64) -> u64
    ensures { result ≡ h * 179 % 2 ^ 64 }
{
    let mut product = h << 7;
    product = wrapping_add_u64(product, h << 5);
    product = wrapping_add_u64(product, h << 4);
    product = wrapping_add_u64(product, h << 1);
    wrapping_add_u64(product, h)
}

/// h times the prime 1,099,511,628,211, modulo 2^64, by three products that are added in the order of the FNV text, which builds the
/// prime as 2^40 + 2^8 + 179 (`printed` of specs/Fnv keeps this order).
pub fn wrapping_mul_prime(h: u64) -> u64
    ensures { result ≡ printed h }
{
    let product = wrapping_add_u64(h << 40, h << 8);
    wrapping_add_u64(product, wrapping_mul_179(h))
}

// One byte more.
fn add_byte(h: u64, byte: u64) -> u64
    ensures { result ≡ fnv_from h (byte ∷ []) }
{
    wrapping_mul_prime(h ^ byte)
}

// Two bytes that are 0: exclusive or leaves the sum as it is.
fn add_two_zeros(h: u64) -> u64
    ensures { result ≡ fnv_from h (0 ∷ 0 ∷ []) }
{
    wrapping_mul_prime(wrapping_mul_prime(h))
}

// The low 32 bits of a number, as four bytes. An id is below 65,536, so that its first two bytes are 0.
fn add_u32(h: u64, x: u64) -> u64
    ensures { result ≡ fnv_from h (bytes32 x) }
{
    if x < TWO_TO_16 {
        let zeros = add_two_zeros(h);
        let high = add_byte(zeros, x / BYTE);
        return add_byte(high, x % BYTE);
    }
    let first = add_byte(h, x / TWO_TO_24 % BYTE);
    let second = add_byte(first, x / TWO_TO_16 % BYTE);
    let third = add_byte(second, x / BYTE % BYTE);
    add_byte(third, x % BYTE)
}

// A number of 64 bits, as eight bytes. The payload of an operator is 0.
fn add_u64(h: u64, x: u64) -> u64
    ensures { result ≡ fnv_from h (bytes64 x) }
{
    if x == 0 {
        let half = add_two_zeros(add_two_zeros(h));
        return add_two_zeros(add_two_zeros(half));
    }
    add_u32(add_u32(h, x / TWO_TO_32), x % TWO_TO_32)
}

/// A whole number that names a child: an id as it is lent or as it stands in a word.
pub trait Child: Copy {
    ghost value: { Self → ℕ };

    /// The number, as a word.
    fn value(self) -> u64
        ensures { result ≡ value self };
}

impl Child for u64 {
    ghost value = { λ x. x };

    fn value(self) -> u64 {
        self
    }
}

impl Child for u32 {
    ghost value = { λ x. x };

    fn value(self) -> u64 {
        u64::from(self)
    }
}

// The children, each as four bytes.
fn add_children<T: Child>(h: u64, children: &[T]) -> u64
    ensures { result ≡ fnv_from h (children_bytes (map T.value children.now)) }
{
    let mut sum = h;
    for child in children {
        sum = add_u32(sum, child.value());
    }
    sum
}

// The kind byte and the payload.
fn start(kind: u64, payload: u64) -> u64
    ensures { result ≡ fnv_from offset_basis (kind ∷ bytes64 payload) }
{
    let with_kind = add_byte(OFFSET_BASIS, kind);
    add_u64(with_kind, payload)
}

/// The hash of a node with this kind, payload and children.
pub fn node_hash<T: Child>(kind: u64, payload: u64, children: &[T]) -> u64
    ensures { result ≡ node_hash_of kind payload (map T.value children.now) }
{
    add_children(start(kind, payload), children)
}
