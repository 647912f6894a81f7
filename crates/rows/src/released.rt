// The elements that the organic changes of a row release, and what a nitrifier oxidises besides.
ghost use Rattle.std.specs.Prelude.{◌≡◌, ◌≤◌, nat_abs};
ghost use Rattle.stoichiometry.specs.Rows.{excess};
ghost use Rattle.rows.specs.Inner.Code.{Thousandths, InReleased, released_part};

use stoichiometry::Fractions;

// The fractions of an organic of a set in range: none exceeds 1,000.
#[derive(Clone, Copy)]
pub(crate) struct Content {
    pub of: Fractions,
    ghost thousandths: { Thousandths of },
}

// Elements that a row's organic changes release, thousandth-µg.
#[derive(Clone, Copy)]
pub(crate) struct Released {
    pub c: i64,
    pub h: i64,
    pub o: i64,
    pub n: i64,
    pub p: i64,
    ghost small: { InReleased (record { c = c; h = h; o = o; n = n; p = p }) },
}

// Minus the sum of change × fraction: what three organic changes release of an element.
fn released_part(x: i32, a: u32, y: i32, b: u32, z: i32, c: u32) -> i64
    requires { (a ≤ 1000) × (b ≤ 1000) × (c ≤ 1000) }
    ensures { result ≡ released_part x a y b z c }
{
    -(x as i64 * a as i64 + y as i64 * b as i64 + z as i64 * c as i64)
}

impl Released {
    ghost use Rattle.rows.specs.Inner.Code.{released_by};
    ghost use Rattle.rows.specs.Inner.Held.{elements_of};

    // What the changes x, y and z of organics with the fractions a, b and c release.
    pub(crate) fn by(x: i32, a: Content, y: i32, b: Content, z: i32, c: Content) -> Released
        ensures { elements_of result ≡ released_by x a.of y b.of z c.of }
    {
        let (a, b, c) = (a.of, b.of, c.of);
        Released {
            c: released_part(x, a.carbon, y, b.carbon, z, c.carbon),
            h: released_part(x, a.hydrogen, y, b.hydrogen, z, c.hydrogen),
            o: released_part(x, a.oxygen, y, b.oxygen, z, c.oxygen),
            n: released_part(x, a.nitrogen, y, b.nitrogen, z, c.nitrogen),
            p: released_part(x, a.phosphorus, y, b.phosphorus, z, c.phosphorus),
        }
    }
}

// m / 22,320 of 7 and 9: 100,000 − yield × N fraction.
pub(crate) fn excess_of(y: u32, f: Content) -> i64
    requires { y ≤ 100 }
    ensures value { result ≡ excess y f.of }
    ensures result_bound { nat_abs result ≤ 100000 }
{
    (100000 - y * f.of.nitrogen) as i64
}
