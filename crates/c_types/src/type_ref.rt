//! Types that borrow from the declarations of a source.
ghost use Rattle.std.specs.Prelude.{◌≡◌};
ghost use Rattle.c_types.specs.Scopes.{starred};
ghost use Rattle.c_types.specs.Operands as spec;
ghost use Rattle.c_types.specs.Types.{layered_is_array};
ghost use Rattle.c_types.specs.Shown.{shown_type, peeled, shown_peeled};

use crate::types::{BaseType, Layer, ObjectType};

/// A type, as so many pointers to what an end of a declared type's layers makes of the base.
#[derive(Clone, Copy, Debug)]
pub struct TypeRef<'a> {
    pub stars: usize,
    pub layers: &'a [Layer],
    pub base: BaseType,
}

impl<'a> TypeRef<'a> {
    /// The type that is declared.
    pub fn of(declared: &'a ObjectType) -> TypeRef<'a>
        ensures { shown_type result ≡ declared.now }
    {
        TypeRef {
            stars: 0,
            layers: declared.layers.as_slice(),
            base: declared.base,
        }
    }

    /// So many pointers to a base.
    pub fn starred(stars: usize, base: BaseType) -> TypeRef<'a>
        ensures { shown_type result ≡ starred stars base }
    {
        TypeRef {
            stars,
            layers: &[],
            base,
        }
    }

    /// The outermost layer, if there is one, and what it is laid round.
    pub fn peeled(self) -> Option<(Layer, TypeRef<'a>)>
        ensures { shown_peeled result ≡ peeled (shown_type self.entry) }
    {
        if self.stars > 0 {
            let to = TypeRef {
                stars: self.stars - 1,
                layers: self.layers,
                base: self.base,
            };
            return Some((Layer::Pointer, to));
        }
        match self.layers {
            [] => None,
            [first, layers @ ..] => {
                let of = TypeRef {
                    stars: 0,
                    layers,
                    base: self.base,
                };
                Some((*first, of))
            }
        }
    }

    /// Whether it is `void`, no pointer to it.
    pub fn is_void(self) -> bool
        ensures { result ≡ spec.is_void (shown_type self.entry) }
    {
        match self.peeled() {
            Some(_) => false,
            None => match self.base {
                BaseType::Void => true,
                BaseType::Int
                | BaseType::Struct(_)
                | BaseType::Function(_)
                | BaseType::Mutex
                | BaseType::Cond
                | BaseType::Barrier
                | BaseType::RwLock => false,
            },
        }
    }

    /// Whether two types are one.
    pub fn is_same(self, other: TypeRef<'a>) -> bool
        ensures { result ≡ spec.same_type (shown_type self.entry) (shown_type other.entry) }
    {
        have_same_base(self.base, other.base) && have_same_layers(self, other)
    }
}

/// Whether the type is an array's.
pub fn is_array(of: TypeRef) -> bool
    ensures { result ≡ layered_is_array (shown_type of.entry).layers }
{
    match of.peeled() {
        Some((Layer::Array(_), _)) => true,
        Some((Layer::Pointer, _)) => false,
        None => false,
    }
}

/// Whether two bases are one.
pub fn have_same_base(a: BaseType, b: BaseType) -> bool
    ensures { result ≡ spec.same_base a b }
{
    match (a, b) {
        (BaseType::Int, BaseType::Int)
        | (BaseType::Void, BaseType::Void)
        | (BaseType::Mutex, BaseType::Mutex)
        | (BaseType::Cond, BaseType::Cond)
        | (BaseType::Barrier, BaseType::Barrier)
        | (BaseType::RwLock, BaseType::RwLock) => true,
        (BaseType::Struct(j), BaseType::Struct(k)) => j == k,
        (BaseType::Function(j), BaseType::Function(k)) => j == k,
        _ => false,
    }
}

fn have_same_layers(a: TypeRef, b: TypeRef) -> bool
    ensures { result ≡ spec.same_layers (shown_type a.entry).layers (shown_type b.entry).layers }
{
    match (a.peeled(), b.peeled()) {
        (None, None) => true,
        (Some((Layer::Pointer, x)), Some((Layer::Pointer, y))) => have_same_layers(x, y),
        (Some((Layer::Array(m), x)), Some((Layer::Array(n), y))) => {
            m == n && have_same_layers(x, y)
        }
        _ => false,
    }
}
