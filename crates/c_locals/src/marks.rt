//! Which numbers are among some, to be found at once.
ghost use Rattle.std.specs.Prelude.{◌≡◌, ℕ, ◌<◌, IfOk, OnOk, length};
ghost use Rattle.c_locals.specs.Addresses.{is_among, is_marked};

use rr_base::List;
use std::alloc::{AllocError, Global};

/// Some numbers, and for each number up to the greatest of them whether it is among them.
#[derive(Drop)]
pub struct Marks {
    numbers: List<usize>,
    marks: List<bool>,
    ghost agree: { (n : ℕ) → is_marked marks n ≡ is_among numbers n },
}

impl Marks {
    /// Marks these numbers. It takes time in proportion to how many they are and to the greatest of them.
    pub fn of(alloc: Global, numbers: List<usize>) -> Result<Marks, AllocError>
        ensures { IfOk result (λ it. it.numbers ≡ numbers) }
    {
        let marks = marks_of(alloc, numbers.as_slice())?;
        Ok(Marks { numbers, marks })
    }

    /// Whether the number is among them.
    pub fn holds(&self, number: usize) -> bool
        ensures { result ≡ is_among self.now.numbers number }
    {
        match self.marks.get(number) {
            Some(mark) => *mark,
            None => false,
        }
    }
}

/// Adds marks for more numbers until the number has one.
fn reach(marks: &mut List<bool>, number: usize) -> Result<(), AllocError>
    ensures within { OnOk result (number < length marks.new) }
    ensures same { OnOk result ((k : ℕ) → is_marked marks.new k ≡ is_marked marks.old k) }
{
    while marks.len() <= number {
        marks.push(false)?;
    }
    Ok(())
}

fn marks_of(alloc: Global, numbers: &[usize]) -> Result<List<bool>, AllocError>
    ensures { IfOk result (λ marks. (k : ℕ) → is_marked marks k ≡ is_among numbers.now k) }
{
    let mut marks = List::new(alloc);
    for number in numbers {
        reach(&mut marks, *number)?;
        marks.set(*number, true);
    }
    Ok(marks)
}
