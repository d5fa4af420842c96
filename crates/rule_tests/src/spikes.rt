// The spike of a day on examples.
use intervals::{Condition, Interval};
use peaks::{shows_spike, spike_of};

fn good(pulses: u16) -> Interval {
    Interval {
        pulses,
        condition: Condition::Good,
    }
}

// Six counts, the last of them the sixth highest.
fn among(highest: u16, sixth: u16) -> Option<u16> {
    let other = good(sixth);
    spike_of(&[other, other, good(highest), other, other, other])
}

#[test]
fn edges(rt: HostRuntime) {
    assert_eq!(rt; among(100, 35), Some(100));
    assert_eq!(rt; among(100, 36), None);
    assert_eq!(rt; among(11, 0), Some(11));
    assert_eq!(rt; among(10, 0), None);
}

// The highest stands twice, so the sixth highest is the lowest of these six.
#[test]
fn repeats(rt: HostRuntime) {
    let day = [good(90), good(40), good(90), good(40), good(40), good(30)];
    assert_eq!(rt; spike_of(&day), Some(90));
    let longer = [
        good(90),
        good(40),
        good(90),
        good(40),
        good(40),
        good(40),
        good(30),
    ];
    assert_eq!(rt; spike_of(&longer), None);
}

#[test]
fn unsound_counts_are_left_out(rt: HostRuntime) {
    let missing = Interval {
        pulses: 500,
        condition: Condition::Missing,
    };
    let few = [missing, good(90), good(1), good(1), good(1), good(1)];
    assert_eq!(rt; spike_of(&few), None);
    assert!(rt; !shows_spike(missing, Some(500)));
}
