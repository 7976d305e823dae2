// Holds a dialogue over standard input: a byte for the number of attributes, and then the answers, two bytes each.
#![tactic(auto)]

use anyhow::anyhow;
use exploration::{Dialogue, NotHeld, ROW_LENGTH, take_all};
use reading::answers_from;
use replies::{Reply, Step, Turn};
use std::io;
use std::io::Read;
use std::process::ExitCode;

// An error is told on the standard error in one line; a main that returned it would tell it a second time. Each program begins and ends so: a
// crate for all three, with its contracts, would be longer than these lines.
fn main(rt: HostRuntime) -> ExitCode {
    match run(&rt) {
        Ok(()) => ExitCode::SUCCESS,
        Err(error) => {
            let _ = eprintln!(rt; "explore: {error}");
            ExitCode::FAILURE
        }
    }
}

fn run(rt: &HostRuntime) -> anyhow::Result<()> {
    let heap = rt.alloc();
    let mut input = Vec::new(heap);
    rt.stdin().read_to_end(&mut input)?;
    let [n, bytes @ ..] = input.as_slice() else {
        return Err(anyhow!("the input is empty: its first byte is the number of attributes"));
    };
    let answers = answers_from(heap, bytes)?;
    let mut known = vec![in heap; 0u64; ROW_LENGTH]?;
    match take_all(
        heap,
        known.as_mut_slice(),
        u64::from(*n),
        answers.as_slice(),
    ) {
        Ok(dialogue) => print_dialogue(rt, &dialogue)?,
        Err(NotHeld::Refused(refusal)) => println!(rt; "{refusal}")?,
        Err(NotHeld::OutOfMemory) => return Err(anyhow!("there is not enough memory")),
    }
    Ok(())
}

// Before each answer what is asked. Once nothing is asked any more, what was confirmed, and then what became of the answers that are left.
fn print_dialogue(rt: &HostRuntime, dialogue: &Dialogue) -> io::Result<()> {
    let turns = dialogue.turns.as_slice();
    for turn in turns {
        if let Some(question) = turn.asked {
            println!(rt; "{}", Reply::Question(question))?;
            println!(rt; "{turn}")?;
        }
    }
    match dialogue.asked {
        Some(question) => println!(rt; "{}", Reply::Question(question))?,
        None => print_finished(rt, turns)?,
    }
    for turn in turns.iter().filter(|turn| turn.asked.is_none()) {
        println!(rt; "{turn}")?;
    }
    Ok(())
}

// That the dialogue is finished, and what was confirmed in it.
fn print_finished(rt: &HostRuntime, turns: &[Turn]) -> io::Result<()> {
    println!(rt; "{}", Reply::Finished)?;
    for turn in turns {
        if let Ok(Step::Confirm(implication)) = turn.outcome {
            println!(rt; "{implication}")?;
        }
    }
    Ok(())
}
