// Small heaps with equal levels and equal entries, worked out by hand.
ghost use Rattle.std.specs.Prelude.{◌≡◌, IsSomeAnd};

use super::*;

fn entry(level: u32, cell: u32) -> Entry
    ensures { (result.level.0 ≡ level) × (result.cell.0 ≡ cell) }
{
    Entry {
        level: Height(level),
        cell: Cell(cell),
    }
}

// What a pop answers.
fn given(level: u32, cell: u32, looks: u32) -> Option<Popped>
    ensures { IsSomeAnd result (λ p. (p.entry.level.0 ≡ level) × (p.entry.cell.0 ≡ cell) × (p.looks ≡ looks)) }
{
    Some(Popped {
        entry: entry(level, cell),
        looks,
    })
}

// Of equal levels the lower number comes out first.
#[test]
fn ties_go_by_number(rt: HostRuntime) {
    let mut words = [0; 4];
    let mut queue = Queue::new(&mut words, 0);
    assert_eq!(rt; queue.push(entry(5, 2)), Some(0));
    assert_eq!(rt; queue.push(entry(5, 1)), Some(1));
    assert_eq!(rt; queue.push(entry(3, 9)), Some(1));
    assert_eq!(rt; queue.push(entry(5, 0)), Some(2));
    assert_eq!(rt; queue.pop(), given(3, 9, 1));
    assert_eq!(rt; queue.pop(), given(5, 0, 1));
    assert_eq!(rt; queue.pop(), given(5, 1, 0));
    assert_eq!(rt; queue.pop(), given(5, 2, 0));
}

// An entry stops below an equal parent and above an equal child, and the look that shows it counts.
#[test]
fn equals_stop(rt: HostRuntime) {
    let mut words = [0; 3];
    let mut queue = Queue::new(&mut words, 0);
    assert_eq!(rt; queue.push(entry(1, 1)), Some(0));
    assert_eq!(rt; queue.push(entry(1, 1)), Some(1));
    assert_eq!(rt; queue.push(entry(1, 1)), Some(1));
    assert_eq!(rt; queue.pop(), given(1, 1, 1));
}

// A full part takes no entry, an empty one gives none, and what lies behind stays.
#[test]
fn refusals_change_nothing(rt: HostRuntime) {
    let mut words = [7, 8];
    assert_eq!(rt; Queue::new(&mut words, 2).push(entry(1, 1)), None);
    assert_eq!(rt; Queue::new(&mut words, 0).pop(), None);
    assert_eq!(rt; Queue::new(&mut words, 3).pop(), None);
    assert_eq!(rt; words, [7, 8]);
    assert_eq!(rt; Queue::new(&mut words, 0).push(entry(0, 1)), Some(0));
    assert_eq!(rt; words, [1, 8]);
}

// The level stands in the high half of a word, and words stand in the order of their entries.
#[test]
fn words_read_back(rt: HostRuntime) {
    assert_eq!(rt; u64::from(entry(1, 2)), 4_294_967_298);
    assert_eq!(rt; Entry::from(4_294_967_298), entry(1, 2));
    assert!(rt; entry(1, 9) < entry(2, 0));
    assert!(rt; u64::from(entry(1, 9)) < u64::from(entry(2, 0)));
}
