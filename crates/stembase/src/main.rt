// Prints the base of a context, read from standard input: a byte for the number of attributes, and then two bytes for each object.
#![tactic(auto)]

use anyhow::anyhow;
use attributes::AttributeCount;
use bases::{BASE_LENGTH, base_of_context, implications_of};
use implications::Implications;
use reading::context_from_bytes;
use std::io::Read;
use std::process::ExitCode;

// An error is told on the standard error in one line; a main that returned it would tell it a second time. Each program begins and ends so: a
// crate for all three, with its contracts, would be longer than these lines.
fn main(rt: HostRuntime) -> ExitCode {
    match run(&rt) {
        Ok(()) => ExitCode::SUCCESS,
        Err(error) => {
            let _ = eprintln!(rt; "stembase: {error}");
            ExitCode::FAILURE
        }
    }
}

fn run(rt: &HostRuntime) -> anyhow::Result<()> {
    let heap = rt.alloc();
    let mut input = Vec::new(heap);
    rt.stdin().read_to_end(&mut input)?;
    let [n, objects @ ..] = input.as_slice() else {
        return Err(anyhow!("the input is empty: its first byte is the number of attributes"));
    };
    let context = context_from_bytes(heap, *n, objects)?;
    let mut base = vec![in heap; 0u64; BASE_LENGTH]?;
    match base_of_context(context.as_slice(), base.as_mut_slice()) {
        Ok(()) => print_list(rt, u64::from(*n), implications_of(base.as_slice()))?,
        Err(refusal) => println!(rt; "{refusal}")?,
    }
    Ok(())
}

// Prints a line for each implication; more than twelve attributes have been refused before.
fn print_list(rt: &HostRuntime, n: u64, numbers: &[u64]) -> anyhow::Result<()> {
    if let Ok(n) = AttributeCount::try_from(n) {
        print!(rt; "{}", Implications { n, numbers })?;
    }
    Ok(())
}
