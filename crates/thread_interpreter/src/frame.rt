// One frame of a thread.
ghost use Rattle.std.specs.Prelude.{◌≡◌, ◌<◌, ◌^◌, ◌+◌, slice_set};
ghost use Rattle.word_semantics.specs.Registers.{register as register_of};
ghost use Rattle.flow_code.specs.Next.{past as past_of, jumped, with_register, given, one_made};

use std::marker::Model;

/// A frame: its function and instruction, how many events of this instruction are made and the last answer that it
/// keeps, and its registers.
#[derive(Drop)]
pub(crate) struct Frame {
    pub(crate) function: u32,
    pub(crate) instr: usize,
    pub(crate) made: u8,
    pub(crate) kept: i64,
    pub(crate) registers: Vec<u64>,
}

impl Model for Frame {
    ghost use Rattle.flow_code.specs.Threads.{Frame as FrameView};

    ghost Value = { FrameView };

    ghost view = { λ f. record { function = f.function; instr = f.instr; made = f.made; kept = f.kept; registers = f.registers.items } };
}

#[inline(always)]
fn write(registers: &mut Vec<u64>, r: u32, value: u64)
    ensures { registers.new.items ≡ slice_set registers.old.items r value }
{
    if (r as usize) < registers.len() {
        registers[r as usize] = value;
    }
}

impl Frame {
    #[inline(always)]
    pub(crate) fn set_register(&mut self, r: u32, value: u64)
        ensures { self.new ≡ with_register self.old r value }
    {
        write(&mut self.registers, r, value);
    }

    // Puts the value into the register that is to get it, if one is.
    pub(crate) fn give(&mut self, into: Option<u32>, value: u64)
        ensures { self.new ≡ given self.old into value }
    {
        if let Some(r) = into {
            self.set_register(r, value);
        }
    }

    // Goes on after the instruction.
    #[inline(always)]
    pub(crate) fn pass(&mut self)
        requires { self.old.instr + 1 < 2 ^ 64 }
        ensures { self.new ≡ past_of self.old }
    {
        self.instr += 1;
        self.made = 0;
        self.kept = 0;
    }

    #[inline(always)]
    pub(crate) fn jump(&mut self, to: u32)
        ensures { self.new ≡ jumped self.old to }
    {
        self.instr = to as usize;
        self.made = 0;
        self.kept = 0;
    }

    // One more event of the instruction is made, and this answer kept.
    pub(crate) fn count_event(&mut self, kept: i64)
        requires { self.old.made + 1 < 2 ^ 8 }
        ensures { self.new ≡ one_made self.old kept }
    {
        self.made += 1;
        self.kept = kept;
    }

    #[inline(always)]
    pub(crate) fn place(&self) -> (u32, usize)
        ensures { (result.0 ≡ self.now.function) × (result.1 ≡ self.now.instr) }
    {
        (self.function, self.instr)
    }

    #[inline(always)]
    pub(crate) fn registers(&self) -> &[u64]
        ensures { result.now ≡ self.now.registers }
    {
        &self.registers
    }

    pub(crate) fn events(&self) -> (u8, i64)
        ensures { (result.0 ≡ self.now.made) × (result.1 ≡ self.now.kept) }
    {
        (self.made, self.kept)
    }
}
