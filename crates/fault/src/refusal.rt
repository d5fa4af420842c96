// The 27 ways to be turned down. docs/REFUSALS.md says who gives each, and in which order they are checked.
ghost use Rattle.std.specs.Prelude.{◌≡◌};
ghost use Rattle.fault.specs.Numbers.{NumbersApart, refusal_number};
ghost use Rattle.fault.specs.Layers.{layer_of};

use crate::layer::Layer;

#[derive(Clone, Copy, PartialEq, Eq, Debug)]
pub enum Refusal {
    OpeningOutsideLimits = 1,
    ReferenceDaysUnfit = 2,
    DeviceClockOff = 3,
    OtherMeterAnswered = 4,
    BookPosted = 5,
    OtherMeterDelivers = 6,
    DriftTooLarge = 7,
    BlockMisshapen = 8,
    PlacesPastCycle = 9,
    PulsesTooHigh = 10,
    ConditionUnknown = 11,
    ReadingsFull = 12,
    BoundaryNotRising = 13,
    ReadingBeyondDials = 14,
    RuleNotOwed = 15,
    RuleRunAlready = 16,
    RuleStillOwing = 17,
    PlacesOrRegionUnfit = 18,
    BufferTooShort = 19,
    PlaceNotVerifiable = 20,
    NothingToChange = 21,
    MeasuredAboveAdvance = 22,
    PlaceWithoutWeight = 23,
    TotalWeightZero = 24,
    PlaceStillOpen = 25,
    RegionOutOfBalance = 26,
    LineUnreadable = 27,
}

impl Refusal {
    // A method and no `From`: `u8::from(refusal)` is no plainer, and drops the word that users know.
    pub fn number(self) -> u8
        ensures number { result ≡ refusal_number self }
        ensures apart { NumbersApart }
    {
        self as u8
    }

    // The one layer that turns a call down in this way.
    pub fn layer(self) -> Layer
        ensures { result ≡ layer_of self }
    {
        match self {
            Refusal::BlockMisshapen | Refusal::PulsesTooHigh | Refusal::ConditionUnknown =>
                Layer::Block,
            Refusal::ReferenceDaysUnfit | Refusal::PlaceWithoutWeight => Layer::Profile,
            Refusal::DeviceClockOff | Refusal::OtherMeterAnswered => Layer::Call,
            Refusal::LineUnreadable => Layer::Program,
            _ => Layer::Book,
        }
    }
}
