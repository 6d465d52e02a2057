// Buffers in fixed memory, for programs that take none from the system.
#![tactic(auto)]

ghost use Rattle.std.specs.Prelude.{◌≡◌, take, replicate};

use arrayvec::ArrayVec;

// So many elements of one value, and N where that is fewer.
pub fn filled<T: Copy + Default + Drop, const N: usize>(value: T, n: usize) -> ArrayVec<T, N>
    ensures { result.items ≡ take n (replicate N value) }
{
    let mut buffer = ArrayVec::from([value; N]);
    buffer.truncate(n);
    buffer
}
