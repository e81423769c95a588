// What comes out of a row of entries.
use crate::order::Order;
use crate::orders::{Numbers, Pairs};
use crate::pair::Pair;
use crate::queue::Queue;

fn fill<E: Copy>(queue: &mut Queue<E>, entries: &[E]) {
    for entry in entries {
        let _ = queue.insert(*entry);
    }
}

// Puts the entries in and takes all out: they stand in the row then in the order in which they came.
fn drained<E: Copy, O: Order<Entry = E>>(order: &O, entries: &[E], row: &mut [E]) -> usize {
    let mut queue = Queue::over(row);
    fill(&mut queue, entries);
    for _ in 0..entries.len() {
        let _ = queue.pop_least(order);
    }
    queue.gone()
}

fn pair(first: u32, second: u32) -> Pair {
    Pair { first, second }
}

// Smaller numbers come first, and equal ones as often as they were put in. An entry that finds the row full is left out.
#[test]
fn numbers(rt: HostRuntime) {
    let mut row = [0; 6];
    assert_eq!(rt; drained(&Numbers, &[7, 5, 9, 5, 0, 7, 1], &mut row), 6);
    assert_eq!(rt; row, [0, 5, 5, 7, 7, 9]);
}

// What is second in a pair counts where the first are equal.
#[test]
fn pairs(rt: HostRuntime) {
    let entries = [pair(3, 1), pair(2, 9), pair(3, 0), pair(2, 9), pair(0, 4)];
    let rising = [pair(0, 4), pair(2, 9), pair(2, 9), pair(3, 0), pair(3, 1)];
    let mut row = [pair(0, 0); 5];
    assert_eq!(rt; drained(&Pairs, &entries, &mut row), 5);
    assert_eq!(rt; row, rising);
}
