//! What stands for an expression of a source, and the word that it gives (C99 6.3.2).
ghost use Rattle.std.specs.Prelude.{◌≡◌, IfOk};
ghost use Rattle.c_types.specs.Shown.{shown_operand, shown_standing};
ghost use Rattle.core_tree.specs.View.{exp_of};
ghost use Rattle.c_operators.specs.Denoted as spec;
ghost use Rattle.c_operators.specs.Views.{denoted_of, part_of};

use crate::constant::Constant;
use crate::make;
use c_types::{Operand, Standing, are_functions, are_whole, is_array};
use core_tree::Value;
use rr_base::Position;
use std::alloc::{AllocError, Global};

/// What stands for an expression.
#[derive(Drop)]
pub enum Denoted {
    /// A local or formal that is a register.
    Register { number: u32, at: Position },
    /// An object in cells, by a pointer to it, and the place at which it is loaded.
    Cells { through: Box<Value>, at: Position },
    /// The literal `0`, which is a null pointer where a pointer is wanted.
    Zero { at: Position },
    /// `NULL`, which is 0 where a pointer to functions is wanted.
    Null { at: Position },
    Value(Box<Value>),
}

/// What a word is.
#[derive(Clone, Copy)]
pub enum WordKind {
    Number,
    /// A pointer to an object.
    Pointer,
    /// A pointer to functions, which is a number.
    Function,
}

impl WordKind {
    /// What the word of an object or a value is.
    pub fn of(operand: Operand) -> WordKind
        ensures { result ≡ spec.kind_of (shown_operand operand.entry) }
    {
        match operand {
            Operand::Pointing(_) => WordKind::Pointer,
            Operand::Function(_) => WordKind::Function,
            Operand::Any | Operand::Whole | Operand::Zero | Operand::Null | Operand::Unfit => {
                WordKind::Number
            }
        }
    }

    /// What two words are that are compared, or of which one is chosen.
    pub fn of_both(a: Operand, b: Operand) -> WordKind
        ensures { result ≡ spec.kind_of_both (shown_operand a.entry) (shown_operand b.entry) }
    {
        if are_whole(a, b) {
            WordKind::Number
        } else if are_functions(a, b) {
            WordKind::Function
        } else {
            WordKind::Pointer
        }
    }
}

/// Whether its word is a pointer.
pub fn is_pointing(of: Operand) -> bool
    ensures { result ≡ spec.is_pointing (shown_operand of.entry) }
{
    match of {
        Operand::Pointing(_) => true,
        Operand::Any
        | Operand::Whole
        | Operand::Zero
        | Operand::Null
        | Operand::Function(_)
        | Operand::Unfit => false,
    }
}

fn is_in_array(of: Standing) -> bool
    ensures { result ≡ spec.is_array (shown_standing of.entry) }
{
    match of {
        Standing::Place(of) => is_array(of),
        Standing::NoType
        | Standing::Zero
        | Standing::Null
        | Standing::Whole
        | Standing::Pointer(_)
        | Standing::Bare(_) => false,
    }
}

impl Denoted {
    /// The word that an expression of this standing gives: an array gives the pointer to its first element, and any
    /// other object what it holds.
    pub fn into_value(self, alloc: Global, of: Standing) -> Result<Box<Value>, AllocError>
        ensures { IfOk result (λ v. exp_of v.value ≡ spec.value_by (shown_standing of.entry) (denoted_of self)) }
    {
        match self {
            Denoted::Register { number, at } => {
                make::register(alloc, number, is_pointing(Operand::of(of)), at)
            }
            Denoted::Cells { through, at } => {
                if is_in_array(of) {
                    Ok(through)
                } else {
                    make::load(alloc, through, is_pointing(Operand::of(of)), at)
                }
            }
            Denoted::Zero { at } => make::number(alloc, 0, at),
            Denoted::Null { at } => make::null(alloc, at),
            Denoted::Value(value) => Ok(value),
        }
    }

    /// The same where a pointer to an object is wanted.
    fn into_pointer(self, alloc: Global, of: Standing) -> Result<Box<Value>, AllocError>
        ensures { IfOk result (λ v. exp_of v.value ≡ spec.pointer_by (shown_standing of.entry) (denoted_of self)) }
    {
        match self {
            Denoted::Zero { at } => make::null(alloc, at),
            Denoted::Null { at } => make::null(alloc, at),
            Denoted::Register { number, at } => Denoted::Register { number, at }.into_value(
                alloc, of,
            ),
            Denoted::Cells { through, at } => Denoted::Cells { through, at }.into_value(alloc, of),
            Denoted::Value(value) => Ok(value),
        }
    }

    /// The same where a pointer to functions is wanted.
    fn into_function(self, alloc: Global, of: Standing) -> Result<Box<Value>, AllocError>
        ensures { IfOk result (λ v. exp_of v.value ≡ spec.function_by (shown_standing of.entry) (denoted_of self)) }
    {
        match self {
            Denoted::Zero { at } => make::number(alloc, 0, at),
            Denoted::Null { at } => make::number(alloc, 0, at),
            Denoted::Register { number, at } => Denoted::Register { number, at }.into_value(
                alloc, of,
            ),
            Denoted::Cells { through, at } => Denoted::Cells { through, at }.into_value(alloc, of),
            Denoted::Value(value) => Ok(value),
        }
    }
}

/// An expression with what it is, and the value that it has where it is constant.
#[derive(Drop)]
pub struct Part<'a> {
    pub standing: Standing<'a>,
    pub denoted: Denoted,
    pub constant: Constant,
}

impl<'a> Part<'a> {
    /// What an operator sees of it.
    pub fn operand(&self) -> Operand<'a>
        ensures { shown_operand result ≡ spec.operand_in (part_of self.now) }
    {
        Operand::of(self.standing)
    }

    /// The word that it gives.
    pub fn into_value(self, alloc: Global) -> Result<Box<Value>, AllocError>
        ensures { IfOk result (λ v. exp_of v.value ≡ spec.value_in (part_of self.entry)) }
    {
        let Part {
            standing,
            denoted,
            ..
        } = self;
        denoted.into_value(alloc, standing)
    }

    /// The word that it gives where one of the kind is wanted.
    pub fn into_wanted(self, alloc: Global, kind: WordKind) -> Result<Box<Value>, AllocError>
        ensures { IfOk result (λ v. exp_of v.value ≡ spec.wanted_in kind (part_of self.entry)) }
    {
        let Part {
            standing,
            denoted,
            ..
        } = self;
        match kind {
            WordKind::Number => denoted.into_value(alloc, standing),
            WordKind::Pointer => denoted.into_pointer(alloc, standing),
            WordKind::Function => denoted.into_function(alloc, standing),
        }
    }
}
