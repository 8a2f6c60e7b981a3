use facts::{AccessAt, Pair};
use flow_code::{Act, Code, Function, Instr, LockInfo};
use listing::{races_text, weak_text};
use rr_base::{CellKind, Layout, List, Place, Position, Site};
use std::alloc::{AllocError, Global};
use std::test::Fail;
use weak_lock_facts::{Grain, Grained};

const START: Position = Position { line: 1, column: 1 };

const X: Place = Place { site: 2, class: 0 };

const ITEMS: Place = Place { site: 1, class: 12 };

fn at(function: u32, instr: u32) -> AccessAt {
    AccessAt { function, instr }
}

fn pair(place: Place, first: AccessAt, second: AccessAt) -> Pair {
    Pair {
        place,
        first,
        second,
    }
}

fn site(alloc: Global, name: &[u8]) -> Result<Site, AllocError> {
    Ok(Site {
        name: List::from_slice(alloc, name)?,
        layout: Layout {
            size: 1,
            element: 1,
            kinds: List::from_slice(alloc, &[CellKind::Whole])?,
        },
        at: START,
    })
}

// A store at 7:3 and then a load at 5:9 in the first, a load at 14:16 in the second, as they stand in their code.
fn functions(alloc: Global) -> Result<List<Function>, AllocError> {
    let places = [(0, 7, 3, true), (0, 5, 9, false), (1, 14, 16, false)];
    let mut functions = List::new(alloc);
    for number in 0..2 {
        let mut instrs = List::new(alloc);
        for (function, line, column, store) in places {
            if function == number {
                let act = if store {
                    Act::StoreCell {
                        through: 0,
                        from: 1,
                    }
                } else {
                    Act::LoadCell {
                        into: 1,
                        through: 0,
                    }
                };
                instrs.push(Instr {
                    at: Position { line, column },
                    act,
                })?;
            }
        }
        functions.push(Function {
            name: List::new(alloc),
            line: 1,
            formals: 0,
            registers: 2,
            pointers: List::new(alloc),
            gives_pointer: false,
            instrs,
            loops: List::new(alloc),
            regions: List::new(alloc),
        })?;
    }
    Ok(functions)
}

fn code(alloc: Global) -> Result<Code, AllocError> {
    let mut sites = List::new(alloc);
    sites.push(site(alloc, b"items")?)?;
    sites.push(site(alloc, b"x")?)?;
    Ok(Code {
        functions: functions(alloc)?,
        sites,
        globals: List::new(alloc),
        global_kinds: List::new(alloc),
        global_bases: List::new(alloc),
        locks: List::new(alloc),
    })
}

#[test]
fn lists_pairs(rt: HostRuntime) -> Result<(), Fail> {
    let store = at(0, 0);
    let load = at(0, 1);
    let late = at(1, 0);
    let rows: [(&[Pair], &str); 4] = [
        (&[], "races 0\n"),
        (
            &[
                pair(X, store, store),
                pair(X, store, load),
                pair(X, store, late),
            ],
            "race x+0 load 5:9 store 7:3\nrace x+0 store 7:3 store 7:3\nrace x+0 store 7:3 load 14:16\nraces 3\n",
        ),
        (
            &[
                pair(X, late, load),
                pair(ITEMS, store, load),
                pair(X, load, late),
            ],
            "race items+12 load 5:9 store 7:3\nrace x+0 load 5:9 load 14:16\nrace x+0 load 5:9 load 14:16\nraces 3\n",
        ),
        (
            &[pair(Place { site: 3, class: 1 }, at(0, 2), at(7, 0))],
            "race +1 load 0:0 load 0:0\nraces 1\n",
        ),
    ];
    for (pairs, want) in rows {
        let code = code(rt.alloc())?;
        let text = races_text(rt.alloc(), &code, pairs)?;
        assert_eq!(rt; text.as_slice(), want.as_bytes(), "{want}");
    }
    Ok(())
}

const LOCKS: [LockInfo; 2] = [
    LockInfo {
        site: 1,
        class: 12,
        stripes: 8,
    },
    LockInfo {
        site: 2,
        class: 0,
        stripes: 1,
    },
];

fn row(access: AccessAt, grain: Grain) -> Grained {
    Grained { access, grain }
}

#[test]
fn lists_weak_locks(rt: HostRuntime) -> Result<(), Fail> {
    let code = code(rt.alloc())?;
    let none = weak_text(rt.alloc(), &code, &[], &[])?;
    assert!(rt; none.as_slice().is_empty());
    let rows = [
        row(at(0, 0), Grain::Block(1)),
        row(at(0, 1), Grain::Loop(0)),
        row(at(1, 0), Grain::Instruction),
    ];
    let text = weak_text(rt.alloc(), &code, LOCKS.as_slice(), rows.as_slice())?;
    let want =
        b"lock w0 items+12 stripes 8\nlock w1 x+0 stripes 1\naccess 5:9 load loop 7:3\naccess 7:3 store block 5:9\naccess 14:16 load instruction 14:16\n";
    assert_eq!(rt; text.as_slice(), want.as_slice());
    Ok(())
}
