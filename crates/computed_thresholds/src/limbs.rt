// A whole number in limbs of ten bits, the lowest first, in the first limbs of an array.
ghost use Rattle.std.specs.Prelude.{◌≡◌, ◌*◌, ◌^◌, ◌≤◌, ◌<◌};
ghost use Rattle.computed_thresholds.specs.Limbs.{Limbs, AllSmall, Scaled, Appends, Appended, Multiplied, number, fitting, most_factor};

pub(crate) const LIMBS: usize = 1332;

const BASE: u64 = 1024;

// The number times a factor, in as many limbs, and what is left over for the limbs above.
fn scale(limbs: &mut [u64; LIMBS], used: usize, factor: u64) -> u64
    requires { AllSmall limbs.old used × (factor ≤ most_factor) }
    ensures { Scaled limbs.old used factor result limbs.new }
{
    let mut over: u64 = 0;
    for i in 0..used {
        let sum = limbs[i] * factor + over;
        limbs[i] = sum % BASE;
        over = sum / BASE;
    }
    over
}

// What is left over put into the limbs above; the count of limbs then. The loop ends when nothing is left, so it is no `for`.
fn append(limbs: &mut [u64; LIMBS], used: usize, left: u64) -> usize
    requires { Appends limbs.old used left }
    ensures { Appended limbs.old used left result limbs.new }
{
    let mut over = left;
    let mut count = used;
    while 0 < over {
        limbs[count] = over % BASE;
        over /= BASE;
        count += 1;
    }
    count
}

// The number times a factor; the count of limbs then.
fn multiply(limbs: &mut [u64; LIMBS], used: usize, factor: u64) -> usize
    requires { Limbs limbs.old used × (0 < factor) × (factor ≤ most_factor) × (number limbs.old used * factor < fitting) }
    ensures { Multiplied limbs.old used factor result limbs.new }
{
    let over = scale(limbs, used, factor);
    append(limbs, used, over)
}

// The number times a power of a factor, a factor at a time; the count of limbs then.
pub(crate) fn multiply_by_power(
    limbs: &mut [u64; LIMBS],
    used: usize,
    factor: u64,
    times: u64,
) -> usize
    requires { Limbs limbs.old used × (0 < factor) × (factor ≤ most_factor) × (number limbs.old used * factor ^ times < fitting) }
    ensures { Multiplied limbs.old used (factor ^ times) result limbs.new }
{
    let mut count = used;
    for _ in 0..times {
        count = multiply(limbs, count, factor);
    }
    count
}
