// The queue and the lanes: their order, every number waiting, and numbers in the wrong lane.
use model::scheduler::Scheduler;
use schedulers::lanes::Lanes;
use schedulers::queue::Queue;
use schedulers::ring::Ring;

#[test]
fn all_1024_numbers_wait_in_line(rt: HostRuntime) {
    let mut queue = Queue::new();
    for row in 0..1024u16 {
        assert!(rt; queue.wake(1023 - row));
    }
    assert!(rt; !queue.wake(1024));
    assert!(rt; !queue.wake(u16::MAX));
    assert!(rt; queue.wake(5));
    assert!(rt; queue.wake(1023));
    for row in 0..1024u16 {
        assert_eq!(rt; queue.take(), Some(1023 - row));
    }
    assert_eq!(rt; queue.take(), None);
}

// The line goes round its places; a number that waits keeps its place, and one that was taken goes to the end.
#[test]
fn the_line_goes_round(rt: HostRuntime) {
    let mut queue = Queue::new();
    for row in 0..1000u16 {
        assert!(rt; queue.wake(row));
    }
    for row in 0..900u16 {
        assert_eq!(rt; queue.take(), Some(row));
    }
    for row in 0..900u16 {
        assert!(rt; queue.wake(row));
    }
    assert!(rt; queue.wake(1023));
    assert!(rt; queue.wake(950));
    for row in 900..1000u16 {
        assert_eq!(rt; queue.take(), Some(row));
    }
    for row in 0..900u16 {
        assert_eq!(rt; queue.take(), Some(row));
    }
    assert_eq!(rt; queue.take(), Some(1023));
    assert_eq!(rt; queue.take(), None);
    for row in 0..1024u16 {
        assert!(rt; queue.wake(row));
    }
    queue.clear();
    assert_eq!(rt; queue.take(), None);
    assert!(rt; queue.wake(7));
    assert!(rt; queue.wake(3));
    assert!(rt; queue.wake(7));
    assert_eq!(rt; queue.take(), Some(7));
    assert!(rt; queue.wake(7));
    assert_eq!(rt; queue.take(), Some(3));
    assert_eq!(rt; queue.take(), Some(7));
    assert_eq!(rt; queue.take(), None);
}

// The schedulers handed in hold numbers of the wrong lane already: they do not count as waiting.
#[test]
fn two_lanes(rt: HostRuntime) {
    let mut first = Queue::new();
    assert!(rt; first.wake(9));
    assert!(rt; first.wake(2));
    assert!(rt; first.wake(5));
    let mut second = Ring::new();
    assert!(rt; second.wake(1));
    assert!(rt; second.wake(8));
    let mut lanes = Lanes::new(first, second, 5);
    assert!(rt; lanes.wake(5));
    assert!(rt; lanes.wake(4));
    assert!(rt; !lanes.wake(1024));
    assert_eq!(rt; lanes.take(), Some(2));
    assert_eq!(rt; lanes.take(), Some(4));
    assert_eq!(rt; lanes.take(), Some(5));
    assert!(rt; lanes.wake(0));
    assert_eq!(rt; lanes.take(), Some(0));
    assert_eq!(rt; lanes.take(), Some(8));
    assert_eq!(rt; lanes.take(), None);
    assert!(rt; lanes.wake(3));
    assert!(rt; lanes.wake(6));
    lanes.clear();
    assert_eq!(rt; lanes.take(), None);
}

#[test]
fn lanes_in_lanes(rt: HostRuntime) {
    let mut lanes = Lanes::new(
        Ring::new(),
        Lanes::new(Queue::new(), Queue::new(), 900),
        400,
    );
    for row in 0..1024u16 {
        assert!(rt; lanes.wake(1023 - row));
    }
    for row in 0..400u16 {
        assert_eq!(rt; lanes.take(), Some(row));
    }
    for row in 0..500u16 {
        assert_eq!(rt; lanes.take(), Some(899 - row));
    }
    for row in 0..124u16 {
        assert_eq!(rt; lanes.take(), Some(1023 - row));
    }
    assert_eq!(rt; lanes.take(), None);
}
