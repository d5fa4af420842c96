// Sharing on examples.
ghost use Rattle.std.specs.Prelude.{if◌then◌else◌, Some, None, nat_eq};

use fault::{Fault, Refusal};
use profile::{Flat, Profile};
use sharing::share;
use sharing::state::{State, Status};

// The weights 1, 2 and 4 at the places 5 to 7, 0 at place 8, and none elsewhere.
struct Doubling;

impl Profile for Doubling {
    ghost meaning = { λ _ i. (if nat_eq i 5 then Some (1, 9) else (if nat_eq i 6 then Some (2, 9) else (if nat_eq i 7 then Some (4, 9) else (if nat_eq i 8 then Some (0, 9) else None)))) };

    fn weight(&self, place: usize) -> Option<(u16, u8)> {
        match place {
            5 => Some((1, 9)),
            6 => Some((2, 9)),
            7 => Some((4, 9)),
            8 => Some((0, 9)),
            _ => None,
        }
    }
}

const OPEN: State = State {
    status: Status::Open,
    marks: 0,
    code: 0,
};

const MEASURED: State = State {
    status: Status::Measured,
    marks: 0,
    code: 0,
};

// The outcome, with the values after it.
fn outcome<P: Profile, const N: usize, const M: usize>(
    profile: &P,
    first: usize,
    states: [State; N],
    amount: u32,
    mut values: [u32; M],
) -> (Result<(), Fault>, [u32; M]) {
    let result = share(profile, first, &states, amount, &mut values);
    (result, values)
}

#[test]
fn every_pulse_is_shared(rt: HostRuntime) {
    assert_eq!(rt;
        outcome(&Doubling, 5, [OPEN; 3], 10, [0; 3]),
        (Ok(()), [1, 3, 6])
    );
    assert_eq!(rt;
        outcome(&Doubling, 4, [MEASURED, OPEN, MEASURED, OPEN], 10, [7; 4]),
        (Ok(()), [7, 2, 7, 8])
    );
    let (_, values) = outcome(&Flat, 0, [OPEN; 21], 200, [0; 21]);
    let total = values
        .iter()
        .fold(0u32, |total, value| total.wrapping_add(*value));
    assert_eq!(rt; total, 200);
    assert_eq!(rt; 21 * (200 / 21), 189);
}

#[test]
fn refusals_come_in_order_and_leave_the_part(rt: HostRuntime) {
    // a value is missing, though place 4 has no weight
    let unfit = Err(Fault::at(Refusal::PlacesOrRegionUnfit, 0));
    assert_eq!(rt;
        outcome(&Doubling, 4, [OPEN; 3], 10, [7; 2]),
        (unfit, [7; 2])
    );
    assert_eq!(rt;
        outcome(&Doubling, 2974, [OPEN; 3], 10, [7; 3]),
        (unfit, [7; 3])
    );
    // the place is counted in the cycle, though the whole weight is 0
    let without_weight = Err(Fault::at(Refusal::PlaceWithoutWeight, 9));
    assert_eq!(rt;
        outcome(&Doubling, 8, [OPEN; 3], 10, [7; 3]),
        (without_weight, [7; 3])
    );
    let zero = Err(Fault::at(Refusal::TotalWeightZero, 0));
    assert_eq!(rt;
        outcome(&Doubling, 8, [OPEN, MEASURED], 10, [7; 2]),
        (zero, [7; 2])
    );
    assert_eq!(rt;
        outcome(&Doubling, 8, [OPEN, MEASURED], 0, [7; 2]),
        (Ok(()), [0, 7])
    );
}
