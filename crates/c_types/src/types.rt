//! Types as the rules of the language see them (C99 6.2.5), with their structs numbered.
ghost use Rattle.std.specs.Prelude.{◌≡◌, [], IfOk};
ghost use Rattle.c_types.specs.Types.{bare, pointer_to};

use rr_base::List;
use std::alloc::{AllocError, Global};

/// What a type is made from. A struct goes by its number: how many structs are defined before it in the text.
#[derive(Clone, Copy, Debug, PartialEq, Eq)]
pub enum BaseType {
    Int,
    Void,
    Struct(usize),
    /// A pointer to functions, by the number of their type.
    Function(usize),
    Mutex,
    Cond,
    Barrier,
    RwLock,
}

/// What is laid round a type to make another one.
#[derive(Clone, Copy, Debug, PartialEq, Eq)]
pub enum Layer {
    Pointer,
    /// An array of so many elements.
    Array(u64),
}

/// A type: layers round a base, the outermost layer first. `int *v[3]` is an array of 3 pointers to Int.
#[derive(Debug, Drop)]
pub struct ObjectType {
    pub layers: List<Layer>,
    pub base: BaseType,
}

impl ObjectType {
    /// The type that has no layers.
    pub fn plain(alloc: Global, base: BaseType) -> ObjectType
        ensures { result ≡ bare base }
    {
        ObjectType {
            layers: List::new(alloc),
            base,
        }
    }

    /// The same type once more.
    pub fn copied(&self, alloc: Global) -> Result<ObjectType, AllocError>
        ensures { IfOk result (λ t. t ≡ self.now) }
    {
        let layers = self.layers.copied(alloc)?;
        Ok(ObjectType {
            layers,
            base: self.base,
        })
    }

    /// The pointer to this type.
    pub fn pointed_to(&self, alloc: Global) -> Result<ObjectType, AllocError>
        ensures { IfOk result (λ t. t ≡ pointer_to self.now) }
    {
        let mut layers = List::new(alloc);
        layers.push(Layer::Pointer)?;
        layers.extend_from_slice(self.layers.as_slice())?;
        Ok(ObjectType {
            layers,
            base: self.base,
        })
    }
}
