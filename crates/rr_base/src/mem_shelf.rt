ghost use Rattle.std.specs.Prelude.{◌≡◌, ◌≢◌, ◌<◌, ◌+◌, ◌↔◌, None, Some, ℕ, List, length, take, slice_get, vec_len, IfOk, OnOk, OnErr, MatchOption, MatchResult, IsTrue, true};
ghost use Rattle.std.specs.Option.{option_map, option_copied};
ghost use Rattle.std.specs.Str.{bytes_eq};
ghost use Rattle.rr_base.specs.Faults.{ShelfFaults};
ghost use Rattle.rr_base.specs.Files.{with_file};
ghost use Rattle.rr_base.specs.Memory.{new_plan, is_due, content_of, found, IsLastFile, plan_after};

use crate::Bytes;
use crate::list::List;
use crate::plan::Plan;
use crate::shelf::{Shelf, ShelfEnd};
use std::alloc::{AllocError, Global};
use std::marker::Model;

/// A shelf in memory, of whose calls some may be to fail.
#[derive(Debug, Drop)]
pub struct MemShelf {
    files: List<(Bytes, Bytes)>,
    plan: Plan,
}

impl Model for MemShelf {
    ghost use Rattle.rr_base.specs.Memory.{Cabinet};

    ghost Value = { Cabinet };

    ghost view = { λ s. record { files = s.files; plan = s.plan } };
}

impl MemShelf {
    /// A shelf of these files, each a name and a content; of two of one name the later one stays. `fails` has the
    /// numbers, from 0, of the calls of `get` and `put` that are to fail.
    pub fn new(files: List<(Bytes, Bytes)>, fails: List<u64>) -> MemShelf
        ensures { result ≡ record { files = files; plan = new_plan fails } }
    {
        MemShelf {
            files,
            plan: Plan::new(fails),
        }
    }

    /// The content of a name, where it is held.
    pub fn content(&self, name: &str) -> Option<&Bytes>
        ensures { option_copied result ≡ content_of self.now.files name.now }
    {
        match last_named(self.files.as_slice(), name) {
            Some(at) => Some(&self.files.at(at).1),
            None => None,
        }
    }
}

/// The place of the last file of that name.
fn last_named(files: &[(Bytes, Bytes)], name: &str) -> Option<usize>
    ensures { MatchOption result (content_of files.now name.now ≡ None) (IsLastFile files.now name.now) }
{
    for at in (0..files.len()).rev() {
        if files[at].0.as_slice() == name.as_bytes() {
            return Some(at);
        }
    }
    None
}

impl Shelf for MemShelf {
    ghost files = { λ s. Some (content_of s.files) };

    ghost faults = { λ s. s.plan.faults };

    fn get(&mut self, alloc: Global, name: &str, most: u32) -> Result<Vec<u8>, ShelfEnd>
        ensures failed { (result ≡ Err ShelfEnd.Failed) ↔ (found self.old name.now ≡ None) }
        ensures bytes { IfOk result (λ bytes. option_map (take (most + 1)) (found self.old name.now) ≡ Some bytes.items) }
        ensures shelf { self.new ≡ record self.old { plan = plan_after result self.old.plan } }
        ensures faults { MatchResult result (λ _. self.new.plan.faults ≡ self.old.plan.faults) (λ end. ShelfFaults end self.old.plan.faults self.new.plan.faults) }
    {
        if self.plan.is_due() {
            self.plan.count_fault();
            return Err(ShelfEnd::Failed);
        }
        let Some(at) = last_named(self.files.as_slice(), name) else {
            self.plan.count_fault();
            return Err(ShelfEnd::Failed);
        };
        let bytes = front_of(alloc, &self.files.at(at).1, most)?;
        self.plan.count_call();
        Ok(bytes)
    }

    fn put(&mut self, alloc: Global, name: &str, bytes: &[u8]) -> Result<(), ShelfEnd>
        ensures failed { (result ≡ Err ShelfEnd.Failed) ↔ IsTrue (is_due self.old.plan) }
        ensures ok { OnOk result (content_of self.new.files ≡ with_file name.now bytes.now (content_of self.old.files)) }
        ensures err { OnErr result (self.new.files ≡ self.old.files) }
        ensures plan { self.new.plan ≡ plan_after result self.old.plan }
        ensures faults { MatchResult result (λ _. self.new.plan.faults ≡ self.old.plan.faults) (λ end. ShelfFaults end self.old.plan.faults self.new.plan.faults) }
    {
        if self.plan.is_due() {
            self.plan.count_fault();
            return Err(ShelfEnd::Failed);
        }
        put_file(alloc, &mut self.files, name, bytes)?;
        self.plan.count_call();
        Ok(())
    }
}

/// The first `most + 1` bytes of a content, or all where there are fewer.
fn front_of(alloc: Global, content: &Bytes, most: u32) -> Result<Vec<u8>, AllocError>
    ensures { IfOk result (λ bytes. bytes.items ≡ take (most + 1) content.now) }
{
    let count = content.len().min(most as usize + 1);
    Vec::from_slice(alloc, &content.as_slice()[..count])
}

/// Keeps `bytes` as the content of `name`. Without memory nothing changes.
fn put_file(
    alloc: Global,
    files: &mut List<(Bytes, Bytes)>,
    name: &str,
    bytes: &[u8],
) -> Result<(), AllocError>
    ensures ok { OnOk result (content_of files.new ≡ with_file name.now bytes.now (content_of files.old)) }
    ensures err { OnErr result (files.new ≡ files.old) }
{
    let file = (
        List::from_slice(alloc, name.as_bytes())?,
        List::from_slice(alloc, bytes)?,
    );
    let before = last_named(files.as_slice(), name);
    files.push(file)?;
    if let Some(at) = before {
        files.remove(at);
    }
    Ok(())
}
