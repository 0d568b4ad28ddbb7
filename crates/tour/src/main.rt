// A tour of the planner: a shutdown worked from open to entails, printed step by step.
//
// Two switchboards feed a lift. The north board is shut down for an hour; what does that knock on to?
#![tactic(auto)]

mod building;
mod words;

use anyhow::ensure;
use building::{Building, LAST, LIFT, NORTH, SOUTH, SUPPLY};
use examining::examine;
use house::{Cell, Fact};
use life::{Call, replay};
use scale::{Scale, Thousandths};
use std::alloc::Global;
use words::{Answered, Asked};

// What is known of the supply of a part at an hour.
fn known(component: u16, low: u16, high: u16, hour: u8) -> anyhow::Result<Fact<Thousandths>> {
    Ok(Fact {
        component,
        label: SUPPLY,
        bound: Thousandths::range(low, high)?,
        from: hour,
        to: hour,
    })
}

// A look at the supply of a part in an hour.
fn look(hour: u8, component: u16) -> Call<Thousandths> {
    Call::Look(Cell {
        hour,
        component,
        label: SUPPLY,
    })
}

// The calls of the shutdown: what is known, the course, a question, a sheet that contradicts the others, and the plan
// without it.
fn shutdown(heap: Global) -> anyhow::Result<Vec<Call<Thousandths>>> {
    let mut calls = vec![in heap;
        Call::File(known(NORTH, 0, 100, 0)?),
        Call::File(known(SOUTH, 900, 1000, 0)?),
        Call::Settle,
    ]?;
    for hour in 0..=LAST {
        calls.extend((NORTH..=LIFT).map(|component| look(hour, component)))?;
    }
    calls.extend([
        Call::Entails(known(LIFT, 0, 500, 1)?),
        Call::Entails(known(LIFT, 0, 500, 0)?),
        Call::Reopen,
        Call::File(known(LIFT, 300, 1000, 1)?),
        Call::Settle,
        Call::Strike(2),
        Call::Settle,
        Call::Entails(known(LIFT, 0, 200, 1)?),
    ])?;
    Ok(calls)
}

// Plays the shutdown on the building, and prints every call with its answer.
fn play(rt: &HostRuntime) -> anyhow::Result<()> {
    let building = Building::new()?;
    let house = building.house();
    let book = building.book();
    ensure!(examine(&house, &book).is_ok(), "the house is refused");
    println!(rt; "The building is a house that can be planned with.")?;
    let mut facts = [known(NORTH, 0, 0, 0)?; 4];
    let mut course = [Thousandths::loose(); 15];
    let calls = shutdown(rt.alloc())?;
    let answers = replay(rt.alloc(), &house, &book, &calls, &mut facts, &mut course)?;
    for (call, answer) in calls.iter().zip(answers.iter()) {
        let asked = Asked(call);
        let answered = Answered(answer);
        println!(rt; "  {asked}{answered}")?;
    }
    Ok(())
}

fn main(rt: HostRuntime) -> anyhow::Result<()> {
    println!(rt;
        "Two switchboards feed a lift. Supply is bounded in thousandths of what a part needs."
    )?;
    println!(rt;
        "Where at least half of the boards are at 100 or less, the lift is at 200 or less an hour later."
    )?;
    println!(rt;
        "The north board is shut down in hour 0, and the south board is known to be well supplied."
    )?;
    println!(rt)?;
    play(&rt)
}
