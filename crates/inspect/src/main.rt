#![tactic(auto)]

// Issues the sample card onto three memories, powers it on where it was taken, and tells what took place.
use card::{State, sample_record};
use engine::{issue, power_on};
use memory::{Image, Memory, Wearing};
use report::{describe, outcome};

// Issues the sample card onto a memory, and tells what came of it.
fn show_issue<M: Memory>(
    rt: &HostRuntime,
    call: &str,
    memory: &mut M,
    state: &mut State,
) -> anyhow::Result<()> {
    let issued = issue(memory, state, &sample_record());
    rt.println(outcome(rt.alloc(), call, issued)?)?;
    Ok(())
}

// Onto an image of 32 pages: the card is issued, powered on and shown.
fn show_card(rt: &HostRuntime) -> anyhow::Result<()> {
    let heap = rt.alloc();
    let mut bytes = [0; 512];
    let mut image = Image::new(&mut bytes);
    let mut state = State::at_rest();
    show_issue(
        rt,
        "issue onto an image of 32 pages",
        &mut image,
        &mut state,
    )?;
    let powered = power_on(&image, &mut state);
    rt.println(outcome(heap, "power-on", powered)?)?;
    if let Some(text) = describe(heap, &image)? {
        rt.println(text)?;
    }
    Ok(())
}

// Onto a wearing memory with a worn page.
fn show_worn(rt: &HostRuntime) -> anyhow::Result<()> {
    let mut left = [65535; 64];
    left[7] = 0;
    show_issue(
        rt,
        "issue onto a wearing memory whose page 7 is worn",
        &mut Wearing::new(left),
        &mut State::at_rest(),
    )
}

// Onto an image that is one page short.
fn show_short(rt: &HostRuntime) -> anyhow::Result<()> {
    let mut bytes = [0; 496];
    show_issue(
        rt,
        "issue onto an image of 31 pages",
        &mut Image::new(&mut bytes),
        &mut State::at_rest(),
    )
}

fn main(rt: HostRuntime) -> anyhow::Result<()> {
    show_card(&rt)?;
    show_worn(&rt)?;
    show_short(&rt)
}
