// Examples of the table and its regions.
use constants::{Cycle, Register};
use fault::Fault;
use readings::Readings;
use std::test::Fail;

// The number of the refusal, if there is one.
fn refusal<T: Drop>(outcome: Result<T, Fault>) -> Option<u8> {
    outcome.err().map(|fault| fault.refusal.number())
}

fn places(days: u32, places_a_day: u32) -> Result<usize, Fault> {
    Ok(Cycle::new(days, places_a_day, 0)?.places())
}

// Two readings, each a boundary and what the register showed.
fn two(
    earlier: (u32, u32),
    later: (u32, u32),
    cycle: &Cycle,
    register: &Register,
) -> Result<Readings, Fault> {
    let first = Readings::new().entered(earlier.0, earlier.1, cycle, register)?;
    first.entered(later.0, later.1, cycle, register)
}

fn region(table: &Readings, region: usize, cycle: &Cycle) -> (usize, usize) {
    (table.region_start(region), table.region_end(region, cycle))
}

#[test]
fn cycles_of_each_length(rt: HostRuntime) -> Result<(), Fail> {
    assert_eq!(rt;
        (places(1, 24)?, places(30, 48)?, places(31, 96)?),
        (24, 1440, 2976)
    );
    Ok(())
}

#[test]
fn readings_refused_in_order(rt: HostRuntime) -> Result<(), Fail> {
    let cycle = Cycle::new(2, 24, 0)?;
    let register = Register::new(4, 10)?;
    let mut table = Readings::new();
    let past = refusal(table.entered(65_536, 10_000, &cycle, &register));
    let beyond = refusal(table.entered(0, 10_000, &cycle, &register));
    for boundary in 0..32 {
        table = table.entered(boundary, 9_999, &cycle, &register)?;
    }
    let full = refusal(table.entered(31, 10_000, &cycle, &register));
    assert_eq!(rt; (full, past, beyond), (Some(12), Some(13), Some(14)));
    Ok(())
}

#[test]
fn register_rolls_over(rt: HostRuntime) -> Result<(), Fail> {
    let cycle = Cycle::new(1, 24, 0)?;
    let register = Register::new(5, 10)?;
    let table = two((3, 99_968), (20, 294), &cycle, &register)?;
    assert_eq!(rt;
        refusal(two((3, 99_968), (3, 294), &cycle, &register)),
        Some(13)
    );
    assert_eq!(rt;
        (table.advance(0, &register), table.advance(1, &register)),
        (0, 326)
    );
    Ok(())
}

#[test]
fn regions_at_the_edges(rt: HostRuntime) -> Result<(), Fail> {
    let cycle = Cycle::new(1, 24, 0)?;
    let register = Register::new(4, 10)?;
    assert_eq!(rt; region(&Readings::new(), 0, &cycle), (0, 24));
    let table = two((0, 9_990), (24, 25), &cycle, &register)?;
    assert_eq!(rt; (table.region_of(0), table.region_of(23)), (1, 1));
    assert_eq!(rt;
        (region(&table, 0, &cycle), region(&table, 2, &cycle)),
        ((0, 0), (24, 24))
    );
    Ok(())
}
