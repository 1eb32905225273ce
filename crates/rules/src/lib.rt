// The venue of document 01 and what rests in it, a message, and why a legging order goes.
// The definitions (specs/) use these types as their records: an array is a list, an unsigned number a natural one, an i32 an integer.
#![tactic(auto)]

// A regular order: quantity is what is left of it, reserve what of that it does not show, display the shown quantity that it shows again before settling (or
// what is left of it, where that is less). Its place is free when its quantity is 0.
#[derive(Clone, Copy, Debug, PartialEq, Eq)]
pub struct Regular {
    pub id: u32,
    pub series: u8,
    pub side: u8,
    pub price: u32,
    pub quantity: u32,
    pub display: u32,
    pub reserve: u32,
}

// A two-leg complex order; limit is N. A unit of it is ratio1 contracts of the first leg and ratio2 of the second, and its quantity is in units.
// Its place is free when its quantity is 0.
#[derive(Clone, Copy, Debug, PartialEq, Eq)]
pub struct Complex {
    pub id: u32,
    pub series1: u8,
    pub side1: u8,
    pub series2: u8,
    pub side2: u8,
    pub class: u8,
    pub limit: i32,
    pub quantity: u32,
    pub ratio1: u8,
    pub ratio2: u8,
}

// A legging order; its place says its series and side. The place is free when its quantity is 0.
#[derive(Clone, Copy, Debug, PartialEq, Eq)]
pub struct Legging {
    pub parent: u32,
    pub price: u32,
    pub quantity: u32,
}

// A series' status and its away prices (0: none).
#[derive(Clone, Copy, Debug, PartialEq, Eq)]
pub struct Listed {
    pub status: u8,
    pub bid: u32,
    pub offer: u32,
}

// An edition of a figure, with the number of the message that entered it: figure 0 to 7 is the increment of that series, 8 the percent of the band.
// Its place is free when its edition is 0.
#[derive(Clone, Copy, Debug, PartialEq, Eq)]
pub struct Edition {
    pub edition: u32,
    pub message: u32,
    pub figure: u8,
    pub value: u8,
}

// The numbers of the messages of a series' last 20 generations, oldest first; 0 where there were fewer.
#[derive(Clone, Copy, Debug, PartialEq, Eq)]
pub struct Generations {
    pub messages: [u32; 20],
}

#[derive(Clone, Copy)]
pub struct Venue {
    pub regular: [Regular; 128],
    pub complex: [Complex; 32],
    pub legging: [Legging; 16],
    pub series: [Listed; 8],
    pub editions: [Edition; 32],
    pub generations: [Generations; 8],
    pub last: u32,
    // the last id that a limited sweep looked at; 0 where there was none
    pub reached: u32,
}

// One leg of a complex order.
#[derive(Clone, Copy, Debug, PartialEq, Eq)]
pub struct Leg {
    pub series: u8,
    pub side: u8,
}

// What a call returns: its number, the messages done (refused ones counted), the bytes written, the venue.
#[derive(Clone, Copy)]
pub struct Returned {
    pub number: u8,
    pub done: u32,
    pub written: usize,
    pub venue: Venue,
}

// The settings in force at a message number, with the number 0; of an unsound venue 9 and zeros.
#[derive(Clone, Copy, Debug, PartialEq, Eq)]
pub struct Settings {
    pub number: u8,
    pub increments: [u8; 8],
    pub percent: u8,
}

// A message, kinds 1 to 11: an order of kind 1 is one of kind 9 that shows all of it, and TwoLeg is kind 2 where it is one to one, else kind 10.
#[derive(Clone, Copy, Debug, PartialEq, Eq)]
pub enum Message {
    Order(Regular),
    TwoLeg(Complex),
    Cancel(u32),
    Away(u8, u32, u32),
    Status(u8, u8),
    Sweep,
    Increment(u8, u8, u32),
    Percent(u8, u32),
    LimitedSweep(u8),
}

// Why a message is refused, by rising number: 1 to 8 and 11 to 14. Its number is the definition refusal_number's.
#[derive(Clone, Copy, Debug, PartialEq, Eq)]
pub enum Refusal {
    Torn,
    NoKind,
    WrongLength,
    OutOfRange,
    IdTooLow,
    OnClosed,
    Full,
    Unknown,
    EditionTooLow,
    InUse,
    NoEditionLeft,
    EqualRatios,
}

// Why a legging order goes, in the order of the filing's (C)(4)(i) to (x).
#[derive(Clone, Copy, Debug, PartialEq, Eq)]
pub enum Cause {
    Worse,
    Unpaired,
    Executed,
    Withdrawn,
    OutOfBand,
    NotOpen,
    Replaced,
    Touched,
    NoUnit,
}

// What a test says of a legging order. Document 01 names this form, so it is no Option of a cause.
#[derive(Clone, Copy, Debug, PartialEq, Eq)]
pub enum Verdict {
    Stands,
    Fails(Cause),
}

// Free places (specs/Words.antt has the same names) ----------------------------------------------

// A free place of the regular orders.
pub const NO_REGULAR: Regular = Regular {
    id: 0,
    series: 0,
    side: 0,
    price: 0,
    quantity: 0,
    display: 0,
    reserve: 0,
};

// A free place of the complex orders.
pub const NO_COMPLEX: Complex = Complex {
    id: 0,
    series1: 0,
    side1: 0,
    series2: 0,
    side2: 0,
    class: 0,
    limit: 0,
    quantity: 0,
    ratio1: 0,
    ratio2: 0,
};

// A free legging place.
pub const NO_LEGGING: Legging = Legging {
    parent: 0,
    price: 0,
    quantity: 0,
};

// A closed series without away prices.
pub const NOT_LISTED: Listed = Listed {
    status: 0,
    bid: 0,
    offer: 0,
};

// A free place of the editions.
pub const NO_EDITION: Edition = Edition {
    edition: 0,
    message: 0,
    figure: 0,
    value: 0,
};

// No generations.
pub const NO_GENERATIONS: Generations = Generations { messages: [0; 20] };
