// Small books of rules, told facts one after another: what each fact strikes out, and what stays open, in sentences.
#![tactic(auto)]

use schedulers::ring::Ring;
use stories::books::table_of;
use stories::examples::{FOUR, FOUR_TOLD_OTHERWISE, GATEWAY};
use stories::saying::{FactTold, Outcome, StillOpen, StruckOut, nothing_fits, nothing_told};
use stories::story::Story;
use telling::{start, tell};

mod telling;

// Tells the facts of a story, and says what each comes to.
fn tell_story(rt: &HostRuntime, story: Story<'_>) -> anyhow::Result<()> {
    let table = table_of(rt.alloc(), story.rules)?;
    let flags = story.flags;
    let mut ring = Ring::new();
    rt.print(story)?;
    let Some(mut b) = start(&table, &mut ring) else {
        rt.println(nothing_fits())?;
        return Ok(());
    };
    rt.println(nothing_told())?;
    rt.println(StillOpen { flags, b: &b })?;
    for fact in story.facts {
        let fact = *fact;
        rt.println(FactTold { flags, fact })?;
        let before = b;
        let verdict = tell(&table, &mut ring, &mut b, fact);
        let struck = StruckOut {
            flags,
            before: &before,
            after: &b,
        };
        rt.print(Outcome { verdict, struck })?;
        rt.println(StillOpen { flags, b: &b })?;
    }
    Ok(())
}

fn main(rt: HostRuntime) -> anyhow::Result<()> {
    tell_story(&rt, FOUR)?;
    rt.println("")?;
    tell_story(&rt, FOUR_TOLD_OTHERWISE)?;
    rt.println("")?;
    tell_story(&rt, GATEWAY)
}
