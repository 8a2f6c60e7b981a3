ghost use Rattle.std.specs.Prelude.{◌<◌};

use rr_base::{
    Bytes, List, MemShelf, MemSink, MemSource, Place, PtrWord, ReadEnd, Shelf, ShelfEnd, Sink,
    SinkEnd, SoundSink, SoundSource, Source, Trap, read_to_end, write_all,
};
use std::alloc::{AllocError, Global};
use std::process::Abort;
use std::test::Fail;

fn bytes_of(alloc: Global, text: &str) -> Result<Bytes, AllocError> {
    List::from_slice(alloc, text.as_bytes())
}

#[test]
fn parts_of_pointer_words(rt: HostRuntime) -> Result<(), Fail> {
    let word = PtrWord::pack(1, 34, 8, 7);
    let parts = (word.site(), word.base(), word.length(), word.offset());
    assert_eq!(rt; parts, (1, 34, 8, 7));
    assert_eq!(rt; word.word(), 0x0040_0022_0008_0007);
    assert_eq!(rt; PtrWord::from_word(0x0040_0022_0008_0007), word);
    Ok(())
}

#[test]
fn places_of_pointer_words(rt: HostRuntime) -> Result<(), Fail> {
    let word = PtrWord::pack(1, 34, 8, 7);
    for &(element, class) in &[(5, 2), (65, 0)] {
        assert_eq!(rt; word.place(element), Place { site: 1, class });
    }
    Ok(())
}

#[test]
fn cells_of_pointer_words(rt: HostRuntime) -> Result<(), Fail> {
    let rows = [
        (PtrWord::pack(1, 34, 8, 7), Ok(41)),
        (PtrWord::pack(1, 34, 8, 8), Err(Trap::OutOfObject)),
        (PtrWord::null(), Err(Trap::BadDereference)),
    ];
    for &(word, want) in &rows {
        assert_eq!(rt; word.cell(), want);
    }
    Ok(())
}

#[test]
fn moved_pointers(rt: HostRuntime) -> Result<(), Fail> {
    let word = PtrWord::pack(1, 34, 8, 7);
    let following = PtrWord::pack(1, 34, 8, 8);
    let rows = [
        (word, 1, Ok(following)),
        (following, 1, Err(Trap::OutOfObject)),
        (following, -9, Err(Trap::OutOfObject)),
        (following, i64::MAX, Err(Trap::OutOfObject)),
        (PtrWord::null(), 0, Err(Trap::BadDereference)),
    ];
    for &(word, by, want) in &rows {
        assert_eq!(rt; word.moved(by), want, "by {by}");
    }
    Ok(())
}

#[test]
fn numbers_in_pointer_words(rt: HostRuntime) -> Result<(), Fail> {
    // A number, and the word that holds it: 54 bits, two's complement.
    let rows = [
        (0, 0),
        (5, 5),
        (-1, 0x003f_ffff_ffff_ffff),
        (9007199254740991, 0x001f_ffff_ffff_ffff),
        (-9007199254740992, 0x0020_0000_0000_0000),
    ];
    for &(number, held) in &rows {
        let word = PtrWord::from_word(held);
        assert_eq!(rt; PtrWord::of_number(number), Ok(word), "at {number}");
        assert_eq!(rt; word.to_number(), Ok(number), "at {number}");
    }
    Ok(())
}

#[test]
fn no_numbers_in_pointer_words(rt: HostRuntime) -> Result<(), Fail> {
    for &number in &[9007199254740992, -9007199254740993] {
        assert_eq!(rt; PtrWord::of_number(number), Err(Trap::CastRange));
    }
    let word = PtrWord::pack(1, 34, 8, 7);
    assert_eq!(rt; word.to_number(), Err(Trap::PointerToNumber));
    Ok(())
}

#[test]
fn numbers_of_traps(rt: HostRuntime) -> Result<(), Fail> {
    assert_eq!(rt;
        (Trap::DivideByZero.number(), Trap::RwMisuse.number()),
        (1, 18)
    );
    Ok(())
}

fn grow(alloc: Global, list: &mut Bytes) -> Result<(), AllocError> {
    list.push(1)?;
    list.insert(0, 7)?;
    list.append(List::from_vec([4, 5].to_vec(alloc)?))?;
    list.extend_from_slice(&[6])
}

#[test]
fn growing_lists(rt: HostRuntime) -> Result<(), Fail> {
    let alloc = rt.alloc();
    let mut list = List::with_capacity(alloc, 4)?;
    grow(alloc, &mut list)?;
    assert_eq!(rt; list.as_slice(), [7, 1, 4, 5, 6].as_slice());
    assert_eq!(rt;
        (list.first(), list.last(), list.get(5)),
        (Some(&7), Some(&6), None)
    );
    Ok(())
}

// A copy of it is a clone of it, and lies before a greater list.
fn check_copy(
    rt: &impl Abort,
    list: &Bytes,
    copy: &Bytes,
    greater: &Bytes,
) -> Result<(), AllocError> {
    let clone = list.clone()?;
    assert_eq!(rt; *copy, clone);
    assert!(rt; copy < greater);
    Ok(())
}

#[test]
fn equal_lists(rt: HostRuntime) -> Result<(), Fail> {
    let alloc = rt.alloc();
    let list = List::from_slice(alloc, &[7, 1, 4, 5, 6])?;
    let copy = list.copied(alloc)?;
    let greater = List::from_slice(alloc, &[7, 2])?;
    check_copy(&rt, &list, &copy, &greater)?;
    assert_eq!(rt; list.iter().rev().count(), 5);
    Ok(())
}

#[test]
fn shrinking_lists(rt: HostRuntime) -> Result<(), Fail> {
    let alloc = rt.alloc();
    let mut list = List::from_slice(alloc, &[7u8, 1, 4, 5, 6])?;
    list.truncate(4);
    assert_eq!(rt; list.len(), 4);
    list.set(0, 8);
    list.remove_front(1);
    assert_eq!(rt; list.remove(1), 4);
    assert_eq!(rt; list.pop(), Some(5));
    assert_eq!(rt; list.as_slice(), [1].as_slice());
    list.clear();
    assert!(rt; list.is_empty());
    Ok(())
}

#[test]
fn loops_over_lists(rt: HostRuntime) -> Result<(), Fail> {
    let list = List::from_slice(rt.alloc(), &[7u8, 1, 4])?;
    let mut sum = 0;
    for item in &list {
        sum ^= *item;
    }
    assert_eq!(rt; sum, 2);
    for item in list {
        sum ^= item;
    }
    assert_eq!(rt; sum, 0);
    Ok(())
}

fn source_of(alloc: Global, fails: u64) -> Result<MemSource, AllocError> {
    let bytes = bytes_of(alloc, "chimera")?;
    let fails = List::from_slice(alloc, &[fails])?;
    Ok(MemSource::new(bytes, fails))
}

#[test]
fn reads_to_the_end(rt: HostRuntime) -> Result<(), Fail> {
    let alloc = rt.alloc();
    // The call that is to fail, how much may be read and written in one call, and what then comes.
    let reads = [
        (9, 7, Ok(7)),
        (9, 6, Err(ReadEnd::TooLarge)),
        (0, 7, Err(ReadEnd::Failed)),
        (1, 7, Err(ReadEnd::Failed)),
    ];
    for &(fails, most, want) in &reads {
        let mut source = source_of(alloc, fails)?;
        let got = read_to_end(alloc, &mut source, most);
        assert_eq!(rt; got.map(|bytes| bytes.len()), want, "at {fails}");
    }
    Ok(())
}

fn check_rest(rt: &impl Abort, alloc: Global, source: &mut SoundSource) -> Result<(), Fail> {
    let rest = read_to_end(alloc, source, 4)?;
    assert_eq!(rt; rest.as_slice(), "mera".as_bytes());
    Ok(())
}

fn check_source(rt: &impl Abort, alloc: Global, source: &mut SoundSource) -> Result<(), Fail> {
    let mut into = [0; 3];
    assert_eq!(rt; source.read(&mut into), Ok(3));
    assert_eq!(rt; into, [99, 104, 105]);
    assert_eq!(rt; source.bytes().as_slice(), "mera".as_bytes());
    check_rest(rt, alloc, source)?;
    assert!(rt; source.bytes().is_empty());
    Ok(())
}

#[test]
fn sound_sources(rt: HostRuntime) -> Result<(), Fail> {
    let mut source = SoundSource::sound(bytes_of(rt.alloc(), "chimera")?);
    check_source(&rt, rt.alloc(), &mut source)
}

fn sink_of(alloc: Global, fails: u64, most: usize) -> Result<MemSink, AllocError>
    requires { 0 < most }
{
    let bytes = bytes_of(alloc, "> ")?;
    let fails = List::from_slice(alloc, &[fails])?;
    Ok(MemSink::new(bytes, fails, most))
}

fn check_write(
    rt: &impl Abort,
    alloc: Global,
    sink: &mut MemSink,
    want: Result<(), SinkEnd>,
    held: &str,
) {
    let got = write_all(alloc, sink, "goat".as_bytes());
    assert_eq!(rt; got, want, "{held}");
    assert_eq!(rt; sink.bytes().as_slice(), held.as_bytes());
}

#[test]
fn writes_all(rt: HostRuntime) -> Result<(), Fail> {
    let alloc = rt.alloc();
    let writes = [
        (9, 3, Ok(()), "> goat"),
        (9, 1, Ok(()), "> goat"),
        (0, 3, Err(SinkEnd::Failed), "> "),
        (1, 3, Err(SinkEnd::Failed), "> goa"),
    ];
    for &(fails, most, want, held) in &writes {
        let mut sink = sink_of(alloc, fails, most)?;
        check_write(&rt, alloc, &mut sink, want, held);
    }
    Ok(())
}

#[test]
fn sound_sinks(rt: HostRuntime) -> Result<(), Fail> {
    let alloc = rt.alloc();
    let mut sink = SoundSink::sound(bytes_of(alloc, "")?, 2);
    assert_eq!(rt; sink.write(alloc, "lion".as_bytes()), Ok(2));
    assert_eq!(rt; sink.bytes().as_slice(), "li".as_bytes());
    Ok(())
}

fn push_file(
    alloc: Global,
    files: &mut List<(Bytes, Bytes)>,
    name: &str,
    content: &str,
) -> Result<(), AllocError> {
    let name = bytes_of(alloc, name)?;
    let content = bytes_of(alloc, content)?;
    files.push((name, content))
}

// File `a` is put twice.
fn files_of(alloc: Global) -> Result<List<(Bytes, Bytes)>, AllocError> {
    let mut files = List::new(alloc);
    for &(name, content) in &[("a", "old"), ("b", ""), ("a", "snake")] {
        push_file(alloc, &mut files, name, content)?;
    }
    Ok(files)
}

// A shelf of these files, whose calls with these numbers fail.
fn shelf_of(alloc: Global, fails: &[u64]) -> Result<MemShelf, AllocError> {
    let fails = List::from_slice(alloc, fails)?;
    Ok(MemShelf::new(files_of(alloc)?, fails))
}

#[test]
fn gets_files(rt: HostRuntime) -> Result<(), Fail> {
    let alloc = rt.alloc();
    let mut shelf = shelf_of(alloc, &[4])?;
    let gets = [
        ("a", 2, Ok(3)),
        ("a", 4, Ok(5)),
        ("b", 9, Ok(0)),
        ("c", 9, Err(ShelfEnd::Failed)),
        ("a", 9, Err(ShelfEnd::Failed)),
    ];
    for &(name, most, want) in &gets {
        let got = shelf.get(alloc, name, most);
        assert_eq!(rt; got.map(|bytes| bytes.len()), want, "at {name} {most}");
    }
    Ok(())
}

fn check_put(
    rt: &impl Abort,
    alloc: Global,
    shelf: &mut MemShelf,
    name: &str,
    content: &str,
) -> Result<(), Fail> {
    shelf.put(alloc, name, content.as_bytes())?;
    let held = shelf.content(name).ok_or("held")?;
    assert_eq!(rt; held.as_slice(), content.as_bytes());
    Ok(())
}

fn check_puts(rt: &impl Abort, alloc: Global, shelf: &mut MemShelf) -> Result<(), Fail> {
    assert_eq!(rt;
        shelf.put(alloc, "c", "lion".as_bytes()),
        Err(ShelfEnd::Failed)
    );
    assert_eq!(rt; shelf.content("c"), None);
    for &(name, content) in &[("c", "lion"), ("a", "goat")] {
        check_put(rt, alloc, shelf, name, content)?;
    }
    assert_eq!(rt; shelf.get(alloc, "a", 0)?.as_slice(), "g".as_bytes());
    Ok(())
}

#[test]
fn puts_files(rt: HostRuntime) -> Result<(), Fail> {
    let mut shelf = shelf_of(rt.alloc(), &[0])?;
    check_puts(&rt, rt.alloc(), &mut shelf)
}
