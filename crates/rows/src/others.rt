// The changes of a row's substances that are no organics, without a division.
ghost use Rattle.std.specs.Prelude.{◌≡◌, ◌≤◌, nat_abs};
ghost use Rattle.rows.specs.Inner.Code.{InFurther, kind_of, released_by};
ghost use Rattle.rows.specs.Inner.Code.{most_fifteenth, fifteenth_of, others_of, others_from};
ghost use Rattle.rows.specs.Inner.Held.{elements_of, numbers_of};

use crate::kind::Kind;
use crate::released::{Content, Released};
use stoichiometry::{Acceptor, Fractions, Further, Nitrogen};

// The changes of the substances that are no organics, grains, and E.
#[derive(Clone, Copy)]
pub(crate) struct Others {
    pub nh4: i64,
    pub no2: i64,
    pub no3: i64,
    pub hpo4: i64,
    pub o2: i64,
    pub hco3: i64,
    pub h: i64,
    pub xp: i64,
    pub h2o: i64,
    pub n2: i64,
    pub e: i64,
}

// E / 15, which is whole: every E is a multiple of 15.
fn fifteenth(r: Released, k: Kind) -> i64
    ensures { result ≡ fifteenth_of (elements_of r) (numbers_of k) }
{
    let Released { c, h, o, n, p } = r;
    let Kind {
        nitrate,
        nitrite,
        nh4no2,
        no2no3,
        ..
    } = k;
    651 * o - 1736 * c - 5208 * h + 1116 * n
        - 840 * p
        - n * (2976 * nitrate + 2232 * nitrite)
        - 2232 * nh4no2
        - 744 * no2no3
}

// The changes of the substances that are no organics, from e = E / 15.
fn other_changes(r: Released, k: Kind, e: i64) -> Others
    requires { nat_abs e ≤ most_fifteenth }
    ensures { result ≡ others_of (elements_of r) (numbers_of k) e }
{
    let Released { c, h, n, p, .. } = r;
    let Kind {
        nitrate,
        nitrite,
        nh4no2,
        no2no3,
        adsorbed,
        no3no2,
        no2n2,
        no3n2,
    } = k;
    let a = Fractions::NITROGEN_GRAINS * n;
    let a3 = a * nitrate;
    let a2 = a * nitrite;
    let m7 = Fractions::NITROGEN_GRAINS * nh4no2;
    let m9 = Fractions::NITROGEN_GRAINS * no2no3;
    let moved = a3 + a2 + m7;
    let e4 = e * no3no2;
    let e5 = e * no2n2;
    let e6 = e * no3n2;
    let hco3 = Fractions::CARBON_GRAINS * c;
    Others {
        nh4: a - moved,
        no2: a2 + m7 - m9 - 30 * e4 + 20 * e5,
        no3: a3 + m9 + 30 * e4 + 12 * e6,
        hpo4: Fractions::PHOSPHORUS_GRAINS * p - adsorbed,
        o2: 15 * (e - e4 - e5 - e6),
        hco3,
        h: hco3 + 20160 * p - a + 2 * moved + 20 * e5 + 12 * e6,
        xp: adsorbed,
        h2o: 156240 * h - hco3 - 33480 * n - 15120 * p + moved - 10 * e5 - 6 * e6,
        n2: 0 - 10 * e5 - 6 * e6,
        e: 15 * e,
    }
}

// The same from three organic changes with their fractions, the nitrogen's form, what is turned over besides and the
// acceptor. Nine parameters, since the organics in a struct take 1.8 to 4 times as long, and the three enums in one 3 times.
pub(crate) fn others_of(
    x: i32,
    fx: Content,
    y: i32,
    fy: Content,
    z: i32,
    fz: Content,
    n: Nitrogen,
    f: Further,
    a: Acceptor,
) -> Others
    requires { InFurther f }
    ensures { result ≡ others_from (released_by x fx.of y fy.of z fz.of) (kind_of n f a) }
{
    let r = Released::by(x, fx, y, fy, z, fz);
    let k = Kind::of(n, f, a);
    let e = fifteenth(r, k);
    other_changes(r, k, e)
}
