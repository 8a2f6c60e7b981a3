//! What declarators and parameters are named, and the parameters of a function (C99 6.7.5, 6.9.1).
ghost use Rattle.std.specs.Prelude.{◌≡◌, map};
ghost use Rattle.std.specs.Option.{option_map};
ghost use Rattle.c_tree.specs.View.{declared_of, formal_of, formals_of};
ghost use Rattle.c_names.specs.Sources as spec;
ghost use Rattle.c_names.specs.Sources.{listed_params};

use c_tree::{Declarator, Name, Param, Params};

/// The parameters that are listed.
pub fn listed<'a>(params: &'a Params) -> &'a [Param]
    ensures { map formal_of result.now ≡ listed_params (formals_of params.now) }
{
    match params {
        Params::Nothing => &[],
        Params::Void => &[],
        Params::Listed(params) => params.as_slice(),
    }
}

/// The name of the parameter, if it has one.
pub fn param_name(param: &Param) -> Option<&Name>
    ensures { option_map (λ n. n.now) result ≡ spec.param_name (formal_of param.now) }
{
    match param {
        Param::Object { name, .. } => name.as_ref(),
        Param::Pointer { name, .. } => Some(name),
    }
}

/// The name that is declared.
pub fn declared_name(declarator: &Declarator) -> &Name
    ensures { result.now ≡ spec.declared_name (declared_of declarator.now) }
{
    match declarator {
        Declarator::Object { name, .. } => name,
        Declarator::Pointer { name, .. } => name,
    }
}
