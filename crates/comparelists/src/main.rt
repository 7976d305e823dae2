// Compares two lists of implications, read from standard input: a byte for the number of attributes, and then each list, two bytes for its
// count and four for each implication.
#![tactic(auto)]

use anyhow::anyhow;
use attributes::AttributeCount;
use bases::{BASE_LENGTH, Refusal, base_of_list, implications_of};
use comparisons::compare;
use reading::{behind_list, list_from_bytes};
use std::io::Read;
use std::process::ExitCode;

// An error is told on the standard error in one line; a main that returned it would tell it a second time. Each program begins and ends so: a
// crate for all three, with its contracts, would be longer than these lines.
fn main(rt: HostRuntime) -> ExitCode {
    match run(&rt) {
        Ok(()) => ExitCode::SUCCESS,
        Err(error) => {
            let _ = eprintln!(rt; "comparelists: {error}");
            ExitCode::FAILURE
        }
    }
}

fn run(rt: &HostRuntime) -> anyhow::Result<()> {
    let heap = rt.alloc();
    let mut input = Vec::new(heap);
    rt.stdin().read_to_end(&mut input)?;
    let [n, lists @ ..] = input.as_slice() else {
        return Err(anyhow!("the input is empty: its first byte is the number of attributes"));
    };
    let Ok(count) = AttributeCount::try_from(u64::from(*n)) else {
        println!(rt; "{}", Refusal::TooManyAttributes)?;
        return Ok(());
    };
    let first = list_from_bytes(heap, *n, lists)?;
    let second = list_from_bytes(heap, *n, behind_list(lists))?;
    let Some(first_needs) = needed(rt, "first", first.as_slice())? else {
        return Ok(());
    };
    let Some(second_needs) = needed(rt, "second", second.as_slice())? else {
        return Ok(());
    };
    let one = implications_of(first.as_slice());
    let other = implications_of(second.as_slice());
    println!(rt; "{}", compare(count, one, other))?;
    println!(rt; "first: {} rules, {first_needs} needed", one.len() / 2)?;
    println!(rt; "second: {} rules, {second_needs} needed", other.len() / 2)?;
    Ok(())
}

// How many implications the base of a list has; none, and the refusal is printed, if the list is refused. A refusal handed out would have to be printed
// by the caller, once for each list.
fn needed(rt: &HostRuntime, name: &str, list: &[u64]) -> anyhow::Result<Option<usize>> {
    let mut base = vec![in rt.alloc(); 0u64; BASE_LENGTH]?;
    match base_of_list(list, base.as_mut_slice()) {
        Ok(()) => Ok(Some(implications_of(base.as_slice()).len() / 2)),
        Err(refusal) => {
            println!(rt; "{name}: {refusal}")?;
            Ok(None)
        }
    }
}
