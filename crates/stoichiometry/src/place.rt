// The places of the substances in their order, counted from 0: where an amount of a cell, or an entry of a row, stands.
// The number of a substance is one more. Plain numbers: an enum of the 18 would be turned into one wherever it indexes,
// and runs of neighbours, as XH to XI, are told by their places. The places of processes and cells are plain numbers
// too: loops count them, and as a type each would be made by every caller and taken apart at every index. Where a place
// indexes, a clause asks that it is in range.
pub const SS: usize = 0;

pub const SI: usize = 1;

pub const NH4: usize = 2;

pub const NO2: usize = 3;

pub const NO3: usize = 4;

pub const HPO4: usize = 5;

pub const O2: usize = 6;

pub const HCO3: usize = 7;

pub const H_PLUS: usize = 8;

pub const XH: usize = 9;

pub const XN1: usize = 10;

pub const XN2: usize = 11;

pub const XALG: usize = 12;

pub const XS: usize = 13;

pub const XI: usize = 14;

pub const XP: usize = 15;

pub const H2O: usize = 16;

pub const N2: usize = 17;
