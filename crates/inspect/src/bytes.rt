// The block's bytes from standard input.
ghost use Rattle.std.specs.Prelude.{◌≡◌, ◌≤◌, take, vec_len, IfOk, IfSome};

use std::alloc::Global;
use std::io;
use std::io::Read;

// A byte more than a block of 65,535 places has. What would come after it does not matter: a block that fills more than
// the longest is refused for its length.
const MOST_BYTES: usize = 327_680;

pub(crate) fn block_bytes<R: Read + Drop>(input: R, heap: Global) -> io::Result<Vec<u8>>
    ensures bound { IfOk result (λ v. vec_len v ≤ 327680) }
    ensures value { IfOk result (λ v. IfSome (R.remaining input) (λ xs. v.items ≡ take 327680 xs)) }
{
    // With a byte to spare, or reading would ask for more memory before it sees that nothing is left to take.
    let mut bytes = Vec::with_capacity(heap, MOST_BYTES + 1)?;
    input.take(MOST_BYTES as u64).read_to_end(&mut bytes)?;
    // Cuts nothing off. The library says how much `take` gives only where a reader's bytes are known.
    bytes.truncate(MOST_BYTES);
    Ok(bytes)
}
