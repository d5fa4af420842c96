// Tests of the two edges: the reading call and the delivery block. They have a crate of their own, since a crate with
// tests is proved twice.

#![tactic(auto)]

#[cfg(test)]
mod tests {
    use block_writer::write_block;
    use call::{Arguments, Clocks, Waiting};
    use delivery::Stretch;
    use fault::Fault;
    use intervals::{Condition, Interval};
    use std::test::Fail;

    // Number, position and layer.
    type Told = (u8, usize, u8);

    fn told(fault: Fault) -> Told {
        (fault.refusal.number(), fault.position, fault.layer.number())
    }

    fn clocks(device: u32, standard: u32, meter: u32) -> Clocks {
        Clocks {
            device,
            standard,
            meter,
        }
    }

    // The drift.
    fn identified(clocks: Clocks, answered: u32) -> Result<i64, Told> {
        Waiting::dial(77)
            .identify(clocks, answered)
            .map(|call| call.hang_up().drift)
            .map_err(|unanswered| told(unanswered.fault))
    }

    #[test]
    fn a_call_is_identified_or_refused(rt: HostRuntime) {
        assert_eq!(rt; identified(clocks(1000, 1002, 1012), 77), Ok(12));
        assert_eq!(rt; identified(clocks(1000, 998, 0), 77), Ok(-1000));
        assert_eq!(rt;
            identified(clocks(u32::MAX, u32::MAX, 0), 77),
            Ok(-4_294_967_295)
        );
        assert_eq!(rt; identified(clocks(1000, 1003, 1000), 77), Err((3, 0, 4)));
        assert_eq!(rt; identified(clocks(1000, 1000, 1000), 78), Err((4, 0, 4)));
        assert_eq!(rt;
            identified(clocks(1003, 1000, 1000), 78),
            Err((3, 0, 4)),
            "the clock is checked first"
        );
    }

    #[test]
    fn a_refused_call_waits_on(rt: HostRuntime) -> Result<(), Fail> {
        let answer = Waiting::dial(77).identify(clocks(5, 9, 5), 77);
        // an identified call cannot be dropped
        let hung_up = answer.map(|call| call.hang_up());
        let unanswered = hung_up.err().ok_or("identified")?;
        assert_eq!(rt; unanswered.call.number(), 77);
        Ok(())
    }

    fn taken(bytes: &[u8]) -> Result<(), Told> {
        Stretch::read(bytes).map(|_| ()).map_err(told)
    }

    #[test]
    fn a_block_is_taken_or_refused(rt: HostRuntime) {
        assert_eq!(rt; taken(&[7, 0, 1, 0, 40, 0, 0, 0, 0]), Ok(()));
        assert_eq!(rt; taken(&[7, 0, 1]), Err((8, 0, 1)), "short");
        assert_eq!(rt; taken(&[7, 0, 0, 0]), Err((8, 0, 1)), "no places");
        assert_eq!(rt;
            taken(&[7, 0, 1, 0, 40, 0, 0, 0]),
            Err((8, 0, 1)),
            "a byte too few"
        );
        assert_eq!(rt;
            taken(&[7, 0, 1, 0, 40, 0, 0, 0, 0, 0]),
            Err((8, 0, 1)),
            "a byte too many"
        );
        let high = [7, 0, 2, 0, 255, 255, 0, 0, 0, 0, 1, 0, 4, 0];
        assert_eq!(rt;
            taken(&high),
            Err((10, 8, 1)),
            "pulses are checked before conditions"
        );
        assert_eq!(rt;
            taken(&[7, 0, 2, 0, 1, 0, 0, 0, 1, 0, 0, 0, 3, 4]),
            Err((11, 8, 1))
        );
    }

    #[test]
    fn a_block_is_written_and_read_back(rt: HostRuntime) -> Result<(), Fail> {
        let over = Interval {
            pulses: 513,
            condition: Condition::Overflow,
        };
        let mut buffer = [9; 11];
        assert_eq!(rt; write_block(258, &[over], &mut buffer).ok(), Some(9));
        assert_eq!(rt; buffer, [2, 1, 1, 0, 1, 2, 0, 0, 1, 9, 9]);
        let stretch = Stretch::read(&buffer[0..9])?;
        let Interval { pulses, condition } = stretch.interval(0).ok_or("no place")?;
        assert_eq!(rt;
            (stretch.first(), pulses, u8::from(condition)),
            (258, 513, 1)
        );
        Ok(())
    }

    fn written(intervals: &[Interval], buffer: &mut [u8]) -> Result<usize, Told> {
        write_block(0, intervals, buffer).map_err(told)
    }

    #[test]
    fn a_refused_writer_leaves_the_buffer(rt: HostRuntime) {
        let none = Interval {
            pulses: 0,
            condition: Condition::Missing,
        };
        let mut buffer = [7; 8];
        assert_eq!(rt; written(&[none], &mut buffer), Err((19, 0, 2)));
        assert_eq!(rt; written(&[], &mut buffer), Err((18, 0, 2)));
        assert_eq!(rt; buffer, [7; 8]);
    }

    fn read(words: &[Option<u32>]) -> Result<(), Told> {
        Arguments::try_from(words).map(|_| ()).map_err(told)
    }

    #[test]
    fn five_numbers_make_a_call(rt: HostRuntime) {
        let five = [Some(1), Some(2), Some(3), Some(4), Some(5)];
        assert_eq!(rt; read(&five), Ok(()));
        assert_eq!(rt; read(&[]), Err((27, 0, 5)));
        assert_eq!(rt;
            read(&[Some(1), Some(2), Some(3), Some(4), None]),
            Err((27, 0, 5))
        );
        assert_eq!(rt;
            read(&[Some(1), Some(2), Some(3), Some(4), Some(5), Some(6)]),
            Err((27, 0, 5))
        );
    }

    #[test]
    fn a_fault_prints_itself(rt: HostRuntime) -> Result<(), Fail> {
        let answer = Stretch::read(&[7, 0, 1, 0, 0, 0, 1, 0, 0]);
        let fault = answer.err().ok_or("taken")?;
        let text = format!(in rt.alloc(); "{fault}")?;
        assert!(rt; text.as_str() == "refusal 10, position 7, layer 1");
        Ok(())
    }
}
