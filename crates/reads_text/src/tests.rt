use crate::reads_text;
use rr_base::List;
use std::test::Fail;
use thread_interpreter::Access;

#[test]
fn writes_a_line_for_each(rt: HostRuntime) -> Result<(), Fail> {
    let alloc = rt.alloc();
    let mut reads = List::new(alloc);
    for (thread, count, cell, value) in [
        (0, 9, 7, 1),
        (0, 11, 8, 2),
        (2, 4_294_967_295, 4_194_303, u64::MAX),
        (15, 1, 0, 1 << 63),
        (15, 2, 0, (1 << 63) - 1),
    ] {
        reads.push(Access {
            thread,
            count,
            cell,
            value,
            store: false,
        })?;
    }
    let text = reads_text(alloc, &reads)?;
    let want =
        b"0 9 7 1\n0 11 8 2\n2 4294967295 4194303 -1\n15 1 0 -9223372036854775808\n15 2 0 9223372036854775807\n";
    assert_eq!(rt; text.as_slice(), want.as_slice());
    assert!(rt; reads_text(alloc, &List::new(alloc))?.is_empty());
    Ok(())
}
