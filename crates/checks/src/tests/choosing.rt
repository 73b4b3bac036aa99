// The two choosers, at n inside the box, at 256 and above it.
use choosers::ranked::Ranked;
use choosers::rising::Rising;
use model::boxes::FlagBox;
use model::chooser::Chooser;
use model::domain::Domain;

// Flags 3, 5 and 255 are open, and no other.
fn three_open() -> FlagBox {
    let mut b = FlagBox::all_open();
    for flag in 0..=u8::MAX {
        b.put(flag, Domain::One);
    }
    b.put(3, Domain::Open);
    b.put(5, Domain::Open);
    b.put(255, Domain::Open);
    b
}

#[test]
fn rising_picks_the_lowest(rt: HostRuntime) {
    let mut b = three_open();
    assert_eq!(rt; Rising.choose(&b, 0), None);
    assert_eq!(rt; Rising.choose(&b, 3), None);
    assert_eq!(rt; Rising.choose(&b, 4), Some((3, false)));
    assert_eq!(rt; Rising.choose(&b, usize::MAX), Some((3, false)));
    b.put(3, Domain::Empty);
    b.put(5, Domain::Zero);
    assert_eq!(rt; Rising.choose(&b, 255), None);
    assert_eq!(rt; Rising.choose(&b, 256), Some((255, false)));
    b.put(255, Domain::One);
    assert_eq!(rt; Rising.choose(&b, usize::MAX), None);
}

#[test]
fn ranked_picks_the_highest_rank(rt: HostRuntime) {
    let b = three_open();
    let equal = Ranked::new([7; 256]);
    assert_eq!(rt; equal.choose(&b, usize::MAX), Some((3, true)));
    let mut ranks = [0; 256];
    ranks[5] = 1;
    ranks[4] = 255;
    ranks[255] = 255;
    let ranked = Ranked::new(ranks);
    assert_eq!(rt; ranked.choose(&b, 3), None);
    assert_eq!(rt; ranked.choose(&b, 5), Some((3, true)));
    assert_eq!(rt; ranked.choose(&b, 255), Some((5, true)));
    assert_eq!(rt; ranked.choose(&b, 256), Some((255, true)));
    assert_eq!(rt; ranked.choose(&b, usize::MAX), Some((255, true)));
}
