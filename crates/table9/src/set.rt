// The rows of the published set. They do not depend on the rate constants and half-saturations, which are any in range.
use stoichiometry::{ENTRIES, HalfSaturations, RateConstants, Refusal, Set};

pub(crate) fn published_rows() -> Result<[i64; ENTRIES], Refusal> {
    let set = Set::published(RateConstants::all(2000), HalfSaturations::all(1000000))?;
    let rows = rows::rows_of(set)?;
    Ok(rows.entries)
}
