// Small books of rules, told facts one after another: what each fact strikes out, and what stays open, in sentences. Every story is narrowed
// under three schedulers, which strike the rows in different orders.
#![tactic(auto)]

ghost use Rattle.std.specs.Prelude.{◌≡◌, if◌then◌else◌, codes};

use indexed::Indexed;
use joined::Joined;
use model::book::Book;
use orders::{Boxes, Orders, orders_with, start_all, tell_all};
use stories::books::{clauses_of, table_of};
use stories::examples::{FOUR, FOUR_TOLD_OTHERWISE, GATEWAY, GATEWAY_WITH_CLAUSES};
use stories::saying::{FactTold, Outcome, StillOpen, StruckOut, nothing_fits, nothing_told};
use stories::story::Story;

mod orders;
mod telling;

fn said_of_orders(same: bool) -> &'static str
    ensures { result.now ≡ (if same then codes "Under a ring, a queue and lanes: all orders end in the same box." else codes "Under a ring, a queue and lanes: not all orders end in the same box.") }
{
    if same {
        "Under a ring, a queue and lanes: all orders end in the same box."
    } else {
        "Under a ring, a queue and lanes: not all orders end in the same box."
    }
}

// Says the rules of a story, and tells its facts.
fn tell_story(rt: &HostRuntime, story: Story<'_>) -> anyhow::Result<()> {
    rt.print(story)?;
    let first = clauses_of(rt.alloc(), story.clauses)?;
    let mut orders = orders_with(first.count());
    let second = table_of(rt.alloc(), story.rules)?;
    let book = Indexed::new(rt.alloc(), Joined { first, second })?;
    let Some(boxes) = start_all(&book, &mut orders) else {
        rt.println(nothing_fits())?;
        return Ok(());
    };
    tell_facts(rt, story, &book, &mut orders, boxes)
}

// Tells the facts of a story from these boxes, and says what each comes to.
fn tell_facts<B: Book>(
    rt: &HostRuntime,
    story: Story<'_>,
    book: &Indexed<B>,
    orders: &mut Orders,
    mut boxes: Boxes,
) -> anyhow::Result<()> {
    let flags = story.flags;
    rt.println(nothing_told())?;
    rt.println(StillOpen {
        flags,
        b: &boxes.ring,
    })?;
    let mut same = boxes.agree();
    for fact in story.facts {
        let fact = *fact;
        rt.println(FactTold { flags, fact })?;
        let before = boxes.ring;
        let verdict = tell_all(book, orders, &mut boxes, fact);
        let struck = StruckOut {
            flags,
            before: &before,
            after: &boxes.ring,
        };
        rt.print(Outcome { verdict, struck })?;
        rt.println(StillOpen {
            flags,
            b: &boxes.ring,
        })?;
        same = same && boxes.agree();
    }
    rt.println(said_of_orders(same))?;
    Ok(())
}

fn main(rt: HostRuntime) -> anyhow::Result<()> {
    tell_story(&rt, FOUR)?;
    rt.println("")?;
    tell_story(&rt, FOUR_TOLD_OTHERWISE)?;
    rt.println("")?;
    tell_story(&rt, GATEWAY)?;
    rt.println("")?;
    tell_story(&rt, GATEWAY_WITH_CLAUSES)
}
