// Writing a whole log.

ghost use Rattle.std.specs.Prelude.{◌≡◌, ◌↔◌, ◌++◌, ◌∷◌, [], ◌<◌, ◌≤◌, length, map, IsTrue, OnOk, IfOk};
ghost use Rattle.profiles.specs.declared.profile.Profile.TheVariants as profile;
ghost use Rattle.order_log.specs.declared.version.Version.TheVariants as versions;
ghost use Rattle.order_log.specs.Text.{number_text, hex_digit, hex_text, object_text, entry_line, pair_line, profile_lines, group_line, groups_of, CanSay, text_of, text_in, log_text};

use crate::entry::stripe_of;
use crate::group::sharing;
use crate::log::Log;
use crate::operation::op_text;
use crate::version::Version;
use profiles::Profile;
use rr_base::{Bytes, List};
use std::alloc::{AllocError, Global};
use sync_objects::{Entry, ObjId};

// A number after a word.
fn push_numbered(out: &mut Bytes, word: &[u8], n: u64) -> Result<(), AllocError>
    ensures { OnOk result (out.new ≡ out.old ++ (word.now ++ number_text n)) }
{
    rr_base::push_numbered(out, word, n)
}

// A number after a word, alone in its line.
fn push_number_line(out: &mut Bytes, word: &[u8], n: u64) -> Result<(), AllocError>
    ensures { OnOk result (out.new ≡ out.old ++ (word.now ++ number_text n ++ 10 ∷ [])) }
{
    push_numbered(out, word, n)?;
    out.push(b'\n')
}

/// The name of an object, as a log's entries have it.
pub fn push_object(out: &mut Bytes, obj: ObjId) -> Result<(), AllocError>
    ensures { OnOk result (out.new ≡ out.old ++ object_text obj) }
{
    match obj {
        ObjId::Mutex(cell) => push_numbered(out, b"m", u64::from(cell)),
        ObjId::Cond(cell) => push_numbered(out, b"c", u64::from(cell)),
        ObjId::Barrier(cell) => push_numbered(out, b"b", u64::from(cell)),
        ObjId::Rw(cell) => push_numbered(out, b"r", u64::from(cell)),
        ObjId::Weak { lock, stripe } => {
            push_numbered(out, b"w", u64::from(lock))?;
            push_numbered(out, b".", u64::from(stripe))
        }
        ObjId::Slot(slot) => push_numbered(out, b"s", u64::from(slot)),
        ObjId::Threads => out.extend_from_slice(b"T"),
        ObjId::Halt => out.extend_from_slice(b"H"),
        ObjId::Input => out.extend_from_slice(b"I"),
        ObjId::Output => out.extend_from_slice(b"O"),
    }
}

fn push_entry(out: &mut Bytes, entry: &Entry) -> Result<(), AllocError>
    ensures { OnOk result (out.new ≡ out.old ++ entry_line entry.now) }
{
    push_numbered(out, b"", u64::from(entry.thread))?;
    push_numbered(out, b" ", u64::from(entry.count))?;
    out.push(b' ')?;
    out.extend_from_slice(op_text(entry.op))?;
    out.push(b' ')?;
    push_object(out, entry.obj)
}

// The line of an entry and so many more, each of the next stripe.
fn push_group_line(out: &mut Bytes, first: &Entry, more: usize) -> Result<(), AllocError>
    requires { more ≤ 16777312 }
    ensures { OnOk result (out.new ≡ out.old ++ (group_line (record { first = first.now; more = more }) ++ 10 ∷ [])) }
{
    push_entry(out, first)?;
    if more > 0 {
        let last = u64::from(stripe_of(first.obj)) + more as u64;
        push_numbered(out, b"-", last)?;
    }
    out.push(b'\n')
}

fn push_entry_lines(out: &mut Bytes, version: Version, entries: &[Entry]) -> Result<(), AllocError>
    requires { length entries.now ≤ 16777312 }
    ensures { OnOk result (out.new ≡ out.old ++ text_of (map group_line (groups_of version entries.now))) }
{
    let mut rest = entries;
    while let [first, after @ ..] = rest {
        let more = sharing(version, first, after);
        push_group_line(out, first, more)?;
        rest = &after[more..];
    }
    Ok(())
}

fn push_pair_line(out: &mut Bytes, pair: &(Bytes, Bytes)) -> Result<(), AllocError>
    ensures { OnOk result (out.new ≡ out.old ++ (pair_line pair.now ++ 10 ∷ [])) }
{
    out.extend_from_slice(b"pair ")?;
    out.extend_from_slice(pair.0.as_slice())?;
    out.push(b' ')?;
    out.extend_from_slice(pair.1.as_slice())?;
    out.push(b'\n')
}

fn push_profile_lines(out: &mut Bytes, profile: &Profile) -> Result<(), AllocError>
    ensures { OnOk result (out.new ≡ out.old ++ text_of (profile_lines profile.now)) }
{
    match profile {
        Profile::All => out.extend_from_slice(b"profile all\n"),
        Profile::Pairs(pairs) => push_pair_lines(out, pairs.as_list().as_slice()),
    }
}

fn push_pair_lines(out: &mut Bytes, pairs: &[(Bytes, Bytes)]) -> Result<(), AllocError>
    ensures { OnOk result (out.new ≡ out.old ++ text_of (profile_lines (profile.Pairs pairs.now))) }
{
    push_number_line(out, b"profile ", pairs.len() as u64)?;
    for pair in pairs {
        push_pair_line(out, pair)?;
    }
    Ok(())
}

fn hex_byte(value: u8) -> u8
    requires { value < 16 }
    ensures { result ≡ hex_digit value }
{
    if value < 10 { b'0' + value } else { 87 + value }
}

fn push_hex(out: &mut Bytes, bytes: &[u8]) -> Result<(), AllocError>
    ensures { OnOk result (out.new ≡ out.old ++ hex_text bytes.now) }
{
    for byte in bytes {
        out.push(hex_byte(*byte / 16))?;
        out.push(hex_byte(*byte % 16))?;
    }
    Ok(())
}

// The text of a log in this version.
fn write_in(alloc: Global, version: Version, log: &Log) -> Result<Bytes, AllocError>
    ensures { IfOk result (λ text. text ≡ text_in version log.now) }
{
    let setup = log.setup();
    let mut out = List::new(alloc);
    out.extend_from_slice(version.line())?;
    out.push(b'\n')?;
    push_number_line(&mut out, b"slots ", u64::from(setup.slots()))?;
    push_number_line(&mut out, b"cells ", u64::from(setup.cells()))?;
    push_number_line(&mut out, b"limit ", u64::from(setup.limit()))?;
    push_profile_lines(&mut out, log.profile())?;
    push_number_line(&mut out, b"input ", setup.input().len() as u64)?;
    push_hex(&mut out, setup.input().as_slice())?;
    out.push(b'\n')?;
    push_entry_lines(&mut out, version, log.entries().as_slice())?;
    Ok(out)
}

/// The text of a log.
pub fn write_log(alloc: Global, log: &Log) -> Result<Bytes, AllocError>
    ensures { IfOk result (λ text. text ≡ log_text log.now) }
{
    write_in(alloc, Version::Two, log)
}

/// Whether version 1 can say the log: no entry is of a read-write lock.
pub fn fits_version_1(log: &Log) -> bool
    ensures { IsTrue result ↔ CanSay versions.One log.now }
{
    log.entries()
        .as_slice()
        .iter()
        .all(|entry| Version::One.has_word(entry.op))
}

/// The text in version 1 of a log that it can say, for those who read no other.
pub fn write_log_1(alloc: Global, log: &Log) -> Result<Bytes, AllocError>
    requires { CanSay versions.One log.now }
    ensures { IfOk result (λ text. text ≡ text_in versions.One log.now) }
{
    write_in(alloc, Version::One, log)
}
