//! What an expression is, and what an operator sees of it (C99 6.5).
ghost use Rattle.std.specs.Prelude.{◌≡◌};
ghost use Rattle.c_types.specs.Operands as spec;
ghost use Rattle.c_types.specs.Shown.{shown_type, shown_standing, shown_operand};

use crate::type_ref::TypeRef;
use crate::types::{BaseType, Layer};

/// What an expression is.
#[derive(Clone, Copy, Debug)]
pub enum Standing<'a> {
    /// It has a fault in it, and so no type.
    NoType,
    /// The literal `0`, which fits every pointer too.
    Zero,
    /// `NULL`
    Null,
    /// A value of Int.
    Whole,
    /// A pointer to the type.
    Pointer(TypeRef<'a>),
    /// Another value of a base type: of Void, say.
    Bare(BaseType),
    /// An object of the type.
    Place(TypeRef<'a>),
}

/// What an operator sees of an operand.
#[derive(Clone, Copy, Debug)]
pub enum Operand<'a> {
    /// An expression without a type.
    Any,
    Whole,
    Zero,
    Null,
    /// A pointer to the type. An array is the pointer to its first element.
    Pointing(TypeRef<'a>),
    /// A pointer to functions of the type with this number.
    Function(usize),
    /// Void, a struct, a mutex, a condition variable, a barrier or a read-write lock.
    Unfit,
}

impl<'a> Operand<'a> {
    /// A value of the type.
    pub fn of_type(of: TypeRef<'a>) -> Operand<'a>
        ensures { shown_operand result ≡ spec.type_operand (shown_type of.entry) }
    {
        match of.peeled() {
            Some((Layer::Pointer, to)) => Operand::Pointing(to),
            Some((Layer::Array(_), element)) => Operand::Pointing(element),
            None => Operand::of_base(of.base),
        }
    }

    fn of_base(base: BaseType) -> Operand<'a>
        ensures { shown_operand result ≡ spec.base_operand base }
    {
        match base {
            BaseType::Int => Operand::Whole,
            BaseType::Function(number) => Operand::Function(number),
            BaseType::Void
            | BaseType::Struct(_)
            | BaseType::Mutex
            | BaseType::Cond
            | BaseType::Barrier
            | BaseType::RwLock => Operand::Unfit,
        }
    }

    /// An expression as an operand: an array is a pointer to its first element (C99 6.3.2.1).
    pub fn of(standing: Standing<'a>) -> Operand<'a>
        ensures { shown_operand result ≡ spec.operand_of (shown_standing standing.entry) }
    {
        match standing {
            Standing::NoType => Operand::Any,
            Standing::Zero => Operand::Zero,
            Standing::Null => Operand::Null,
            Standing::Whole => Operand::Whole,
            Standing::Pointer(to) => Operand::Pointing(to),
            Standing::Bare(base) => Operand::of_base(base),
            Standing::Place(of) => Operand::of_type(of),
        }
    }
}

impl<'a> Standing<'a> {
    /// What an object of the type gives as a value.
    pub fn value_of(of: TypeRef<'a>) -> Standing<'a>
        ensures { shown_standing result ≡ spec.type_value (shown_type of.entry) }
    {
        match of.peeled() {
            Some((_, to)) => Standing::Pointer(to),
            None => match of.base {
                BaseType::Int => Standing::Whole,
                other => Standing::Bare(other),
            },
        }
    }

    /// What it is as an expression again.
    pub fn as_value(self) -> Standing<'a>
        ensures { shown_standing result ≡ spec.as_value (shown_standing self.entry) }
    {
        match self {
            Standing::Zero => Standing::Whole,
            Standing::Null => Standing::Pointer(TypeRef::starred(0, BaseType::Void)),
            Standing::Place(of) => Standing::value_of(of),
            Standing::NoType => Standing::NoType,
            Standing::Whole => Standing::Whole,
            Standing::Pointer(to) => Standing::Pointer(to),
            Standing::Bare(base) => Standing::Bare(base),
        }
    }
}
