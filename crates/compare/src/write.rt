// The table that is written of the counts.
use crate::kinds::Call;
use crate::tally::{NUMBERS, Row, Tally};
use std::io::Result;

fn write_head(rt: &impl Print) -> Result<()> {
    print!(rt; "{:<9}", "call")?;
    for number in 0..NUMBERS {
        print!(rt; "{number:>7}")?;
    }
    println!(rt; "{:>7}{:>7}", "all", "equal")
}

fn write_row(rt: &impl Print, call: Call, row: &Row) -> Result<()> {
    print!(rt; "{call:<9}")?;
    for count in &row.counts {
        print!(rt; "{count:>7}")?;
    }
    println!(rt; "{:>7}{:>7}", row.calls(), row.equal)
}

pub(crate) fn write_table(rt: &impl Print, tally: &Tally) -> Result<()> {
    write_head(rt)?;
    let mut calls = 0u64;
    let mut equal = 0u64;
    for (call, row) in Call::ALL.iter().zip(&tally.rows) {
        write_row(rt, *call, row)?;
        calls = calls.saturating_add(row.calls());
        equal = equal.saturating_add(row.equal);
    }
    println!(rt; "{calls} calls, {equal} equal")?;
    match tally.first {
        Some(first) => println!(rt; "first difference: {first}"),
        None => println!(rt; "no difference"),
    }
}
