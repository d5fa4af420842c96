// The steps of one call, each printed as it happens.
use block_writer::write_block;
use call::{Arguments, Identified, Waiting};
use delivery::Stretch;
use intervals::Interval;
use std::alloc::Global;
use std::io;
use std::io::Write;

// Where the steps are printed, and the heap for what they hold on the way.
#[derive(Drop)]
pub(crate) struct Inspection<W> {
    pub(crate) out: W,
    pub(crate) heap: Global,
}

impl<W: Write> Inspection<W> {
    pub(crate) fn call_meter(&mut self, arguments: &Arguments, bytes: &[u8]) -> io::Result<()> {
        let waiting = Waiting::dial(arguments.dialled);
        let number = waiting.number();
        writeln!(self.out, "dialled {number}")?;
        match waiting.identify(arguments.clocks, arguments.answered) {
            Ok(call) => {
                // hung up even where a step could not be printed
                let shown = self.take_delivery(&call, bytes);
                let _over = call.hang_up();
                shown?;
                writeln!(self.out, "hung up")
            }
            Err(unanswered) => writeln!(self.out, "{}", unanswered.fault),
        }
    }

    fn take_delivery(&mut self, call: &Identified, bytes: &[u8]) -> io::Result<()> {
        let drift = call.drift();
        writeln!(self.out, "identified, drift {drift} seconds")?;
        match call.take_block(bytes) {
            Ok(stretch) => {
                let intervals = self.show_stretch(&stretch)?;
                self.write_back(stretch.first(), &intervals, bytes)
            }
            Err(fault) => writeln!(self.out, "{fault}"),
        }
    }

    // Gives the intervals that it printed.
    fn show_stretch(&mut self, stretch: &Stretch<'_>) -> io::Result<Vec<Interval>> {
        let first = stretch.first();
        let count = stretch.count();
        writeln!(self.out, "first place {first}, {count} places")?;
        // each of these places has an interval: `filter_map` would look for the next that has one
        let delivered = (0..count).map_while(|i| stretch.interval(i));
        let mut intervals = Vec::new(self.heap);
        for (place, interval) in (usize::from(first)..).zip(delivered) {
            let Interval { pulses, condition } = interval;
            writeln!(self.out, "place {place}: {pulses} pulses, {condition}")?;
            intervals.push(interval)?;
        }
        Ok(intervals)
    }

    fn write_back(&mut self, first: u16, intervals: &[Interval], bytes: &[u8]) -> io::Result<()> {
        let mut buffer = vec![in self.heap; 0u8; bytes.len()]?;
        match write_block(first, intervals, &mut buffer) {
            Ok(written) => {
                let same = if buffer.as_slice() == bytes {
                    "the same"
                } else {
                    "not the same"
                };
                writeln!(self.out, "written back {written} bytes, {same}")
            }
            Err(fault) => writeln!(self.out, "{fault}"),
        }
    }
}
