// The ring with every number waiting, and its order.
use model::scheduler::Scheduler;
use schedulers::ring::Ring;

#[test]
fn all_1024_numbers_wait(rt: HostRuntime) {
    let mut ring = Ring::new();
    for row in 0..1024u16 {
        assert!(rt; ring.wake(row));
    }
    assert!(rt; !ring.wake(1024));
    assert!(rt; !ring.wake(u16::MAX));
    for row in 0..1024u16 {
        assert_eq!(rt; ring.take(), Some(row));
    }
    assert_eq!(rt; ring.take(), None);
}

#[test]
fn goes_on_after_the_last_taken(rt: HostRuntime) {
    let mut ring = Ring::new();
    ring.wake(5);
    ring.wake(3);
    assert_eq!(rt; ring.take(), Some(3));
    ring.wake(3);
    ring.wake(1023);
    assert_eq!(rt; ring.take(), Some(5));
    assert_eq!(rt; ring.take(), Some(1023));
    ring.wake(0);
    assert_eq!(rt; ring.take(), Some(0));
    assert_eq!(rt; ring.take(), Some(3));
    assert_eq!(rt; ring.take(), None);
}

#[test]
fn clear_keeps_the_place(rt: HostRuntime) {
    let mut ring = Ring::new();
    ring.wake(9);
    assert_eq!(rt; ring.take(), Some(9));
    ring.wake(4);
    ring.clear();
    assert_eq!(rt; ring.take(), None);
    ring.wake(2);
    ring.wake(11);
    assert_eq!(rt; ring.take(), Some(11));
    assert_eq!(rt; ring.take(), Some(2));
}
