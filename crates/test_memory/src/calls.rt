//! Public calls that no program makes: with enough memory, each returns what its contract says.

ghost use Rattle.std.specs.Prelude.{◌≡◌};

use acquire_queue::queue::Queue;
use audit::totals::totals;
use history::arrival::Arrival;
use history::entries::History;
use history::entry::{End, Entry, Mode, Word};
use history::header::{Header, Object, Policy};
use history::number::put_number;
use node_arena::arena::Arena;
use node_arena::node::Node;
use std::test::Fail;
use test_support::memory::all_memory;

fn asks(seat: u16) -> Arrival
    ensures { result.seat ≡ seat }
{
    Arrival {
        seat,
        mode: Mode::S,
        n: 1,
        back: false,
    }
}

/// A seat that leaves from between others leaves its node in place, until the node comes to the head or the
/// queue is swept.
#[test]
fn a_node_stands_until_it_comes_to_the_head(rt: HostRuntime) -> Result<(), Fail> {
    let mut queue = Queue::open(rt.alloc(), 8)?;
    queue.join(asks(1));
    queue.join(asks(2));
    queue.join(asks(3));
    assert!(rt; queue.leave(2) && queue.live_len() == 2 && queue.standing() == 3);
    queue.join(asks(2));
    assert!(rt; queue.leave(1) && queue.live_len() == 2 && queue.standing() == 2);
    assert!(rt; queue.leave(2) && queue.joined() == 4 && queue.position(3) == Some(0));
    queue.sweep();
    assert!(rt; queue.standing() == 1 && queue.place_of(3) == Some(asks(3)));
    assert!(rt; queue.take_first() == Some(asks(3)) && queue.is_empty());
    Ok(())
}

/// A node is found by its number until it is freed.
#[test]
fn a_full_arena_has_its_nodes(rt: HostRuntime) -> Result<(), Fail> {
    let mut arena = Arena::with_places(rt.alloc(), 1)?;
    let node = Node {
        arrival: asks(7),
        cancelled: false,
    };
    let number = arena.place(node);
    assert!(rt; arena.is_full() && arena.len() == 1 && arena.placed() == 1);
    assert!(rt; arena.get(number) == Some(node) && arena.free(number) == Some(node));
    assert!(rt; arena.get(number).is_none() && !arena.is_full());
    Ok(())
}

const GOT: Entry = Entry {
    seat: 3,
    word: Word::Got,
    mode: Mode::X,
    n: 1,
    at: 0,
    end: End::None,
};

const HEADER: Header = Header {
    object: Object::Lock(Policy::Fair),
    seats: 4,
    conditions: 0,
    cap: 64,
};

/// Writers allocate nothing if there are enough places. If an allocation fails, the bytes are as before.
#[test]
fn writers_take_only_the_places_that_lack(rt: HostRuntime) -> Result<(), Fail> {
    let mut full = Vec::with_capacity(rt.alloc(), 65_536)?;
    full.resize(full.capacity(), b'.')?;
    let mut free = Vec::with_capacity(rt.alloc(), 256)?;
    assert!(rt; HEADER.in_range() && GOT.is_spelt());
    let taken = all_memory(rt.alloc(), 64)?;
    let refused = [
        HEADER.write_part(&mut full).is_ok(),
        GOT.write_words(&mut full).is_ok(),
        put_number(&mut full, 10).is_ok(),
    ];
    let written = [
        HEADER.write_part(&mut free).is_ok(),
        GOT.write_words(&mut free).is_ok(),
        put_number(&mut free, 10).is_ok(),
    ];
    drop(taken);
    assert!(rt; refused == [false; 3] && full.len() == 65_536);
    assert!(rt; written == [true; 3]);
    assert!(rt; free.as_slice() == b"lock fair seats 4 conditions 0 cap 64got x 110".as_slice());
    Ok(())
}

#[test]
fn totals_of_no_entries_are_none(rt: HostRuntime) -> Result<(), Fail> {
    let history = History::open(rt.alloc(), 64);
    assert!(rt; HEADER.in_range());
    let totals = totals(rt.alloc(), &HEADER, &history)?;
    assert!(rt; totals.x == 0 && totals.s == 0 && totals.line == 0 && totals.sleepers == 0);
    Ok(())
}
