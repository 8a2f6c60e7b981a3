use super::*;
use rr_base::List;
use std::alloc::{AllocError, Global};
use std::test::Fail;

const EVERY: Formula = Formula {
    loads: true,
    stores: true,
    thread: None,
    low: 0,
    high: u32::MAX,
    value: None,
};

const LOADS: Formula = Formula {
    stores: false,
    ..EVERY
};

// The loads of a run in which two threads count to 1 in a word of their own and one that they share.
fn loads(alloc: Global) -> Result<List<Access>, AllocError> {
    let rows = [
        (0, 9, 7, 1),
        (0, 11, 8, 2),
        (0, 13, 6, 1),
        (1, 1, 2, 0),
        (1, 3, 6, 0),
        (2, 1, 4, 0),
        (2, 3, 6, 0),
    ];
    let mut accesses = List::new(alloc);
    for (thread, count, cell, value) in rows {
        accesses.push(Access {
            thread,
            count,
            cell,
            value,
            store: false,
        })?;
    }
    Ok(accesses)
}

// It may be shared among threads.
fn shared<T: Sync>(value: &T) -> &T {
    value
}

// A test by hand of the formula `LOADS`.
#[derive(Drop)]
struct IsLoad;

impl AccessTest for IsLoad {
    ghost use Rattle.std.specs.Prelude.{◌≡◌, None, true, false};
    ghost use Rattle.thread_interpreter.specs.declared.access.Formula.{Formula};

    ghost stands_for = { λ _ f. f ≡ record { loads = true; stores = false; thread = None; low = 0; high = 4294967295; value = None } };

    fn test(&self, access: &Access) -> bool {
        !access.store && access.cell <= u32::MAX
    }
}

#[test]
fn finds_first_hits(rt: HostRuntime) -> Result<(), Fail> {
    let accesses = loads(rt.alloc())?;
    let of_cell = Formula {
        low: 6,
        high: 6,
        ..LOADS
    };
    let of_value = Formula {
        value: Some(9),
        ..EVERY
    };
    let of_thread = Formula {
        thread: Some(2),
        ..EVERY
    };
    let stores = Formula {
        loads: false,
        ..EVERY
    };
    let rows = [
        (EVERY, Some(0)),
        (LOADS, Some(0)),
        (of_cell, Some(2)),
        (of_value, None),
        (of_thread, Some(5)),
        (stores, None),
    ];
    for (formula, want) in rows {
        let watch = watch_of(formula);
        assert_eq!(rt; accesses.len(), 7);
        assert_eq!(rt; first_hit(&accesses, shared(&watch)), want);
        assert_eq!(rt; watch.formula(), formula);
    }
    let by_hand = Watch::new(LOADS, IsLoad);
    assert_eq!(rt; accesses.len(), 7);
    assert_eq!(rt; first_hit(&accesses, &by_hand), Some(0));
    Ok(())
}
