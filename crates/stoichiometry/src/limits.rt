// What more than one call is given, with its limits: the length of a step or of an exchange with the air, and the
// saturation of O2. Neither has a value of its own: calls take them as plain numbers.

// Seconds, from 1 on.
#[derive(Clone, Copy)]
pub struct Seconds;

impl Seconds {
    pub const LEAST: u32 = 1;

    pub const MOST: u32 = 3600;

    pub const PER_DAY: u64 = 86400;
}

// The level of O2 that is in balance with the air, µg.
#[derive(Clone, Copy)]
pub struct Saturation;

impl Saturation {
    pub const MOST: u32 = 20000000;
}
