use super::*;
use profiles::{FunctionPairs, Profile};
use rr_base::{Bytes, List};
use std::alloc::Global;
use std::test::Fail;

fn pairs_in(alloc: Global, text: &[u8]) -> Result<FunctionPairs, ProfileFault> {
    match read_profile(alloc, text)? {
        Profile::Pairs(pairs) => Ok(pairs),
        Profile::All => unreachable!(),
    }
}

/// Each text, and what is written of the pairs that it lists, or why it is refused.
#[test]
fn answers_each_row(rt: HostRuntime) -> Result<(), Fail> {
    let alloc = rt.alloc();
    let rows: [(&[u8], Result<&[u8], u8>); 24] = [
        (b"", Err(21)),
        (b"{", Err(21)),
        (b"{\"pairs\":[]", Err(21)),
        (b"{\"pairs\":[]}}", Err(21)),
        (b"{\"pairs\":[[\"a\",\"\xff\"]]}", Err(21)),
        (b"[]", Err(22)),
        (b"{}", Err(22)),
        (b"{\"pairs\":3}", Err(22)),
        (b"{\"pairs\":{}}", Err(22)),
        (b"{\"Pairs\":[]}", Err(22)),
        (b"{\"pairs\":[],\"x\":1}", Err(22)),
        (b"{\"pairs\":[\"a\"]}", Err(22)),
        (b"{\"pairs\":[[\"a\"]]}", Err(22)),
        (b"{\"pairs\":[[\"a\",\"b\",\"c\"]]}", Err(22)),
        (b"{\"pairs\":[[\"a\",1]]}", Err(22)),
        (b"{\"pairs\":[[\"a\",\"b\"],[]]}", Err(22)),
        (b"{\"pairs\":[]}", Ok(b"{\"pairs\":[]}")),
        (b" { \"pairs\" : [ ] }\n", Ok(b"{\"pairs\":[]}")),
        (
            b"{\"pairs\":[[\"b\",\"a\"],[\"a\",\"b\"],[\"a\",\"a\"]]}",
            Ok(b"{\"pairs\":[[\"a\",\"a\"],[\"a\",\"b\"]]}"),
        ),
        (
            b"{\"pairs\":[[\"main\",\"h\"],[\"g\",\"f\"],[\"f\",\"main\"],[\"f\",\"fa\"],[\"f\",\"Z\"]]}",
            Ok(
                b"{\"pairs\":[[\"Z\",\"f\"],[\"f\",\"fa\"],[\"f\",\"g\"],[\"f\",\"main\"],[\"h\",\"main\"]]}",
            ),
        ),
        (
            b"{\"pairs\":[[\"\\u0061\",\"\\\"\\\\\\/\\n\\u0001\"]]}",
            Ok(b"{\"pairs\":[[\"\\\"\\\\/\\n\\u0001\",\"a\"]]}"),
        ),
        (
            b"{\"pairs\":[[\"\\u00e9\",\"\"]]}",
            Ok(b"{\"pairs\":[[\"\",\"\xc3\xa9\"]]}"),
        ),
        (
            b"{\"pairs\":3,\"pairs\":[[\"a\",\"b\"]]}",
            Ok(b"{\"pairs\":[[\"a\",\"b\"]]}"),
        ),
        (b"{\"pairs\":[[\"a\",\"b\"]],\"pairs\":3}", Err(22)),
    ];
    for (text, want) in rows {
        match (pairs_in(alloc, text), want) {
            (Ok(pairs), Ok(again)) => {
                let written = write_profile(alloc, &pairs)?;
                assert_eq!(rt; written.as_slice(), again, "{text:?}");
            }
            (Err(fault), Err(number)) => {
                assert_eq!(rt; fault.number(), Some(number), "{text:?}");
            }
            (Ok(_), Err(_)) => panic!(rt; "{text:?} is read"),
            (Err(_), Ok(_)) => panic!(rt; "{text:?} is refused"),
        }
    }
    Ok(())
}
