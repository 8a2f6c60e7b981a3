//! Sources that break no rule.
ghost use Rattle.std.specs.Prelude.{◌≡◌, None};
ghost use Rattle.c_tree.specs.View.{program_of};
ghost use Rattle.c_sites.specs.Functions.{program_functions};
ghost use Rattle.c_sites.specs.Sites.{program_sites};
ghost use Rattle.c_sites.specs.Whole.{first_fault};

use crate::function_info::FunctionInfo;
use c_tree::Program;
use rr_base::{List, Site};

/// A source that breaks no rule of its types and names, with its sites and its functions. Its sites are each global, each
/// local or formal that is kept in cells, and each `malloc`, in the order of the text; its functions are those that it
/// defines, in the order of their definitions.
#[derive(Drop)]
pub struct Typed {
    program: Program,
    sites: List<Site>,
    functions: List<FunctionInfo>,
    ghost sound: { first_fault (program_of program) ≡ None },
    ghost own: { sites ≡ program_sites (program_of program) },
    ghost defined: { functions ≡ program_functions (program_of program) },
}

impl Typed {
    ghost use Rattle.c_sites.specs.Typed.{program_in, sites_in, functions_in};

    pub(crate) fn new(program: Program, sites: List<Site>, functions: List<FunctionInfo>) -> Typed
        requires sound { first_fault (program_of program) ≡ None }
        requires own { sites ≡ program_sites (program_of program) }
        requires defined { functions ≡ program_functions (program_of program) }
        ensures { program_in result ≡ program }
    {
        Typed {
            program,
            sites,
            functions,
        }
    }

    /// The tree of the source.
    pub fn program(&self) -> &Program
        ensures value { result.now ≡ program_in self.now }
        ensures sound { first_fault (program_of result.now) ≡ None }
    {
        &self.program
    }

    /// The sites, the first with number 1.
    pub fn sites(&self) -> &List<Site>
        ensures value { result.now ≡ sites_in self.now }
        ensures own { result.now ≡ program_sites (program_of (program_in self.now)) }
    {
        &self.sites
    }

    /// The functions that the source defines.
    pub fn functions(&self) -> &List<FunctionInfo>
        ensures value { result.now ≡ functions_in self.now }
        ensures own { result.now ≡ program_functions (program_of (program_in self.now)) }
    {
        &self.functions
    }

    /// The sites alone.
    pub fn into_sites(self) -> List<Site>
        ensures value { result ≡ sites_in self }
        ensures own { result ≡ program_sites (program_of (program_in self)) }
    {
        let Typed { sites, .. } = self;
        sites
    }
}
