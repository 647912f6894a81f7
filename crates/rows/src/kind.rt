// What a row does besides its closure, as numbers.
ghost use Rattle.rows.specs.Inner.Code.{InKind};

use stoichiometry::{Acceptor, Further, Nitrogen};

// What a row does besides its closure: nitrogen as nitrate, as nitrite (0 or 1); NH4 oxidised to NO2, NO2 to NO3 (m is
// 22,320 times that); HPO4 adsorbed, grains; the acceptor: NO3 to NO2, NO2 to N2, NO3 to N2 (0 or 1). Numbers and no
// enums, so that each change of a row is one sum for all processes; of the enums each would be a match of its own.
#[derive(Clone, Copy)]
pub(crate) struct Kind {
    pub nitrate: i64,
    pub nitrite: i64,
    pub nh4no2: i64,
    pub no2no3: i64,
    pub adsorbed: i64,
    pub no3no2: i64,
    pub no2n2: i64,
    pub no3n2: i64,
    ghost small: { InKind (record {
      nitrate = nitrate;
      nitrite = nitrite;
      nh4no2 = nh4no2;
      no2no3 = no2no3;
      adsorbed = adsorbed;
      no3no2 = no3no2;
      no2n2 = no2n2;
      no3n2 = no3n2;
    }) },
}

impl Kind {
    ghost use Rattle.std.specs.Prelude.{◌≡◌};
    ghost use Rattle.rows.specs.Inner.Code.{InFurther, kind_of};
    ghost use Rattle.rows.specs.Inner.Held.{numbers_of};

    // The nitrogen's form, what is turned over besides and the acceptor as numbers. Where the three are constants, a
    // compiler drops the products with 0.
    pub(crate) fn of(n: Nitrogen, f: Further, a: Acceptor) -> Kind
        requires { InFurther f }
        ensures { numbers_of result ≡ kind_of n f a }
    {
        let (nitrate, nitrite) = match n {
            Nitrogen::Nh4 => (0, 0),
            Nitrogen::No3 => (1, 0),
            Nitrogen::No2 => (0, 1),
        };
        let (nh4no2, no2no3, adsorbed) = match f {
            Further::Nothing => (0, 0, 0),
            Further::Nh4ToNo2(k) => (k, 0, 0),
            Further::No2ToNo3(k) => (0, k, 0),
            Further::Adsorbed(x) => (0, 0, x),
        };
        let (no3no2, no2n2, no3n2) = match a {
            Acceptor::Oxygen => (0, 0, 0),
            Acceptor::No3ToNo2 => (1, 0, 0),
            Acceptor::No2ToN2 => (0, 1, 0),
            Acceptor::No3ToN2 => (0, 0, 1),
        };
        Kind {
            nitrate,
            nitrite,
            nh4no2,
            no2no3,
            adsorbed,
            no3no2,
            no2n2,
            no3n2,
        }
    }
}
