// The numbers of the substances in their order, counted from 1, as `transport::load_river` takes them from a caller;
// lists are read by places, counted from 0.
use crate::place;

pub const SS: u32 = place::SS as u32 + 1;

pub const SI: u32 = place::SI as u32 + 1;

pub const NH4: u32 = place::NH4 as u32 + 1;

pub const NO2: u32 = place::NO2 as u32 + 1;

pub const NO3: u32 = place::NO3 as u32 + 1;

pub const HPO4: u32 = place::HPO4 as u32 + 1;

pub const O2: u32 = place::O2 as u32 + 1;

pub const HCO3: u32 = place::HCO3 as u32 + 1;

pub const H_PLUS: u32 = place::H_PLUS as u32 + 1;

pub const XH: u32 = place::XH as u32 + 1;

pub const XN1: u32 = place::XN1 as u32 + 1;

pub const XN2: u32 = place::XN2 as u32 + 1;

pub const XALG: u32 = place::XALG as u32 + 1;

pub const XS: u32 = place::XS as u32 + 1;

pub const XI: u32 = place::XI as u32 + 1;

pub const XP: u32 = place::XP as u32 + 1;

pub const H2O: u32 = place::H2O as u32 + 1;

pub const N2: u32 = place::N2 as u32 + 1;
