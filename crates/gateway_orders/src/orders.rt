// One telling under three schedulers: they hand out the rows in different orders, and what comes of it is the same.
ghost use Rattle.std.specs.Prelude.{◌≡◌, true, false, []};
ghost use Rattle.model.specs.Rows.{workable};
ghost use Rattle.model.specs.View.{at};
ghost use Rattle.model.specs.Waiting.{NoneWaits};
ghost use Rattle.schedulers.specs.Lines.{line};
ghost use Rattle.schedulers.specs.Marks.{marked};
ghost use Rattle.gateway_orders.specs.Orders.{Agree, StartedAll, ToldAll};

use crate::telling::{start, tell};
use indexed::Indexed;
use model::book::Book;
use model::boxes::FlagBox;
use model::fact::Fact;
use narrowing::Verdict;
use schedulers::lanes::Lanes;
use schedulers::queue::Queue;
use schedulers::ring::Ring;

#[derive(Drop)]
pub struct Orders {
    ring: Ring,
    queue: Queue,
    lanes: Lanes<Queue, Ring>,
}

// The box that each order came to.
#[derive(Clone, Copy)]
pub struct Boxes {
    pub ring: FlagBox,
    pub queue: FlagBox,
    pub lanes: FlagBox,
}

// None waits yet. The lanes serve the rows below the boundary first.
pub fn orders_with(boundary: u16) -> Orders
    ensures ring { NoneWaits (marked result.ring.waiting) }
    ensures queue { line result.queue ≡ [] }
    ensures lanes { (NoneWaits (marked result.lanes.second.waiting)) × (line result.lanes.first ≡ []) }
    ensures boundary { result.lanes.boundary ≡ boundary }
{
    Orders {
        ring: Ring::new(),
        queue: Queue::new(),
        lanes: Lanes::new(Queue::new(), Ring::new(), boundary),
    }
}

// The largest box under no facts, in every order, or none where the rules contradict one another.
pub fn start_all<B: Book>(book: &Indexed<B>, orders: &mut Orders) -> Option<Boxes>
    ensures { StartedAll (workable (B.Book.rows book.now)) result }
{
    let ring = start(book, &mut orders.ring)?;
    let queue = start(book, &mut orders.queue)?;
    let lanes = start(book, &mut orders.lanes)?;
    Some(Boxes { ring, queue, lanes })
}

// Tells one fact more, in every order.
pub fn tell_all<B: Book>(
    book: &Indexed<B>,
    orders: &mut Orders,
    boxes: &mut Boxes,
    fact: Fact,
) -> Verdict
    ensures { ToldAll (workable (B.Book.rows book.now)) boxes.old fact.flag fact.value boxes.new result }
{
    let verdict = tell(book, &mut orders.ring, &mut boxes.ring, fact);
    tell(book, &mut orders.queue, &mut boxes.queue, fact);
    tell(book, &mut orders.lanes, &mut boxes.lanes, fact);
    verdict
}

impl Boxes {
    // Whether all orders came to the same box.
    pub fn agree(&self) -> bool
        ensures yes { result ≡ true → Agree self.now }
        ensures no { result ≡ false → Agree self.now → ⊥ }
    {
        self.ring == self.queue && self.ring == self.lanes
    }
}
