// How a thread takes the stripes of a region.
ghost use Rattle.std.specs.Prelude.{◌≡◌, ◌<◌, ◌≤◌, ◌^◌, ◌+◌, ◌-◌, ◌*◌, true, Some, length, IfSome, slice_get, ◌++◌, ◌∷◌, []};
ghost use Rattle.std.specs.Vec.{vec_len, vec_capacity};
ghost use Rattle.std.specs.Option.{option_copied};
ghost use Rattle.flow_code.specs.Next.{on_unless};
ghost use Rattle.flow_code.specs.Stripes.{end_lock as end_lock_of};
ghost use Rattle.flow_code.specs.Holding.{region_of, is_opened_here as is_opened_here_of, latest as latest_of, taken_pairs as taken_pairs_of, left_from as left_from_of, lacked as lacked_of, take_or_quiet as take_or_quiet_of, take_due as take_due_of, taken_before as taken_before_of, latest_with, opened, taken};
ghost use Rattle.thread_interpreter.specs.Flows.{pairs_of_region, pairs_of_act};
ghost use Rattle.flow_code.specs.declared.act.Act.TheVariants as act;

use crate::place::region_at;
use crate::region::OpenRegion;
use crate::state::ThreadState;
use crate::stripes::{after_pairs, first_lacked, hold, pairs_before};
use flow_code::{Code, Region, end_lock, first_lock};
use std::alloc::Global;
use std::mem;
use sync_objects::{ObjId, Op};
use word_semantics::Due;

fn take_or_quiet(number: Option<u32>) -> Due
    requires { IfSome number (λ n. n < 2 ^ 19) }
    ensures { result ≡ take_or_quiet_of number }
{
    match number {
        Some(number) => Due::Operate {
            op: Op::Take,
            obj: ObjId::Weak {
                lock: (number / 8) as u16,
                stripe: (number % 8) as u8,
            },
        },
        None => Due::Quiet,
    }
}

// Puts a region on the others, where there is room.
fn add(regions: &mut Vec<OpenRegion>, region: OpenRegion)
    requires { vec_len regions.old < vec_capacity regions.old }
    ensures { regions.new.items ≡ regions.old.items ++ region ∷ [] }
{
    match regions.push(region) {
        Ok(()) => {}
        Err(_) => unreachable!(),
    }
}

// The latest region gets other stripes.
fn set_latest(regions: &mut Vec<OpenRegion>, pairs: Vec<(u16, u8)>)
    ensures { regions.new.items ≡ latest_with (slice_get regions.old.items (length regions.old.items - 1)) pairs.items regions.old.items }
{
    if let Some(latest) = regions.last_mut() {
        latest.stripes = pairs;
    }
}

impl ThreadState {
    // Whether the latest open region is the one that this instruction opens.
    fn is_opened_here(&self) -> bool
        ensures { result ≡ is_opened_here_of self.now.thread (latest_of self.now.thread) }
    {
        match self.regions.last() {
            Some(region) => { region.frame == self.below.len() && region.instr == self.top.instr }
            None => false,
        }
    }

    // The stripes that this Take has taken so far.
    fn taken_pairs(&self) -> &[(u16, u8)]
        ensures { result.now ≡ taken_pairs_of self.now.thread }
    {
        if !self.is_opened_here() {
            return &[];
        }
        match self.regions.last() {
            Some(region) => region.stripes.as_slice(),
            None => &[],
        }
    }

    // The number from which on stripes are left to this Take.
    fn left_from(&self, region: &Region) -> u32
        ensures value { result ≡ left_from_of self.now.thread region.now }
        ensures within { result ≤ 2 ^ 20 }
    {
        (8 * first_lock(region)).max(after_pairs(self.taken_pairs()))
    }

    // How many stripes the region may have after the next step.
    fn needed_by(&self, code: &Code, region: &Region) -> usize
        ensures { result ≡ pairs_of_region code.now self.now.thread (Some region.now) }
    {
        let from = self.left_from(region);
        let to = 8 * end_lock(code, region);
        self.taken_pairs().len() + to.saturating_sub(from) as usize
    }

    pub(crate) fn needed_of(&self, code: &Code, region: u32) -> usize
        ensures { result ≡ pairs_of_region code.now self.now.thread (region_of code.now self.now.thread.top region) }
    {
        let (function, _) = self.top.place();
        match region_at(code, function, region) {
            Some(region) => self.needed_by(code, region),
            None => 0,
        }
    }

    fn lacked(&self, code: &Code, region: &Region) -> Option<u32>
        ensures value { result ≡ lacked_of code.now self.now.thread (Some region.now) }
        ensures within { IfSome result (λ n. n < 8 * end_lock_of code.now region.now) }
        ensures small { IfSome result (λ n. n < 2 ^ 19) }
    {
        first_lacked(
            code,
            self.top.registers(),
            region,
            &self.stripes,
            self.left_from(region),
            8 * end_lock(code, region),
        )
    }

    pub(crate) fn take_due(&self, code: &Code, region: u32) -> Due
        ensures { result ≡ take_due_of code.now self.now.thread (region_of code.now self.now.thread.top region) }
    {
        let (function, _) = self.top.place();
        match region_at(code, function, region) {
            Some(region) => take_or_quiet(self.lacked(code, region)),
            None => Due::Quiet,
        }
    }

    // What this Take has taken when it has gone on to before a number, in memory that is at hand.
    fn taken_before(
        &self,
        code: &Code,
        region: &Region,
        to: u32,
        spare: Vec<(u16, u8)>,
    ) -> Vec<(u16, u8)>
        requires to { to ≤ 8 * end_lock_of code.now region.now }
        requires numbers { to ≤ 2 ^ 19 }
        requires room { pairs_of_region code.now self.now.thread (Some region.now) ≤ vec_capacity spare }
        ensures { result.items ≡ taken_before_of code.now self.now.thread region.now to }
    {
        let from = self.left_from(region);
        let taken = self.taken_pairs();
        pairs_before(code, self.top.registers(), region, taken, from, to, spare)
    }

    // The region goes on to before this number.
    fn extend(&mut self, alloc: Global, code: &Code, region: &Region, to: u32)
        requires to { to ≤ 8 * end_lock_of code.now region.now }
        requires numbers { to ≤ 2 ^ 19 }
        requires room { self.old.has_region ≡ true }
        requires pairs { pairs_of_region code.now self.old.thread (Some region.now) ≤ self.old.pairs }
        ensures thread { self.new.thread ≡ record self.old.thread { regions = opened self.old.thread (taken_before_of code.now self.old.thread region.now to) } }
        ensures stripe { self.new.has_stripe ≡ self.old.has_stripe }
    {
        let spare = mem::replace(&mut self.pairs, Vec::new(alloc));
        let pairs = self.taken_before(code, region, to, spare);
        if self.is_opened_here() {
            set_latest(&mut self.regions, pairs);
        } else if !pairs.is_empty() {
            let region = OpenRegion {
                frame: self.below.len(),
                instr: self.top.instr,
                stripes: pairs,
            };
            add(&mut self.regions, region);
        }
    }

    fn take_stripes(&mut self, alloc: Global, code: &Code, region: &Region)
        requires instr { self.old.thread.top.instr + 1 < 2 ^ 64 }
        requires stripe { self.old.has_stripe ≡ true }
        requires region { self.old.has_region ≡ true }
        requires pairs { pairs_of_region code.now self.old.thread (Some region.now) ≤ self.old.pairs }
        ensures { self.new.thread ≡ on_unless (lacked_of code.now self.old.thread (Some region.now)) (taken code.now self.old.thread (Some region.now) (lacked_of code.now self.old.thread (Some region.now))) }
    {
        match self.lacked(code, region) {
            Some(number) => {
                self.extend(alloc, code, region, number + 1);
                hold(&mut self.stripes, number);
            }
            None => {
                self.extend(alloc, code, region, 8 * end_lock(code, region));
                self.pass();
            }
        }
    }

    // The next step of a Take.
    pub(crate) fn take_region(&mut self, alloc: Global, code: &Code, region: u32)
        requires instr { self.old.thread.top.instr + 1 < 2 ^ 64 }
        requires stripe { self.old.has_stripe ≡ true }
        requires region { self.old.has_region ≡ true }
        requires pairs { pairs_of_act code.now self.old.thread (Some (act.Take region)) ≤ self.old.pairs }
        ensures { self.new.thread ≡ on_unless (lacked_of code.now self.old.thread (region_of code.now self.old.thread.top region)) (taken code.now self.old.thread (region_of code.now self.old.thread.top region) (lacked_of code.now self.old.thread (region_of code.now self.old.thread.top region))) }
    {
        let (function, _) = self.top.place();
        match region_at(code, function, region) {
            Some(region) => self.take_stripes(alloc, code, region),
            None => self.pass(),
        }
    }
}
