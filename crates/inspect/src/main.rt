// Takes one delivery over a reading call and shows each step: the meter is called and identified, its block is taken
// and checked, written back and compared, and the call is hung up.
// Arguments: the numbers dialled and answered, then the clocks of device, standard and meter. The block's bytes come
// on standard input. Whatever comes in, the answer is the steps or a refusal.

#![tactic(auto)]

mod bytes;
mod steps;

use bytes::block_bytes;
use call::Arguments;
use std::alloc::{AllocError, Global};
use std::io::{BufWriter, Write};
use std::{env, io};
use steps::Inspection;

// What the command line's words say as numbers; a word list that is no text at all says nothing.
fn words(rt: &HostRuntime, heap: Global) -> Result<Vec<Option<u32>>, AllocError> {
    let words = env::args(rt).ok().into_iter().flatten();
    words.skip(1).map(|word| word.parse().ok()).collect(heap)
}

fn main(rt: HostRuntime) -> io::Result<()> {
    let heap = rt.alloc();
    let bytes = block_bytes(rt.stdin(), heap)?;
    let words = words(&rt, heap)?;
    let out = BufWriter::new(heap, rt.stdout())?;
    let mut inspection = Inspection { out, heap };
    match Arguments::try_from(words.as_slice()) {
        Ok(arguments) => inspection.call_meter(&arguments, &bytes)?,
        Err(fault) => writeln!(inspection.out, "{fault}")?,
    }
    inspection.out.flush()
}
