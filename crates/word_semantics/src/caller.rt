ghost use Rattle.std.specs.Prelude.{◌≡◌};

use rr_base::Site;
use std::marker::Model;
use sync_objects::Setup;

/// What a call of the library knows: the sites of its code, the setup, its thread, and how many bytes this has printed.
#[derive(Drop)]
pub struct Caller<'a> {
    sites: &'a [Site],
    setup: &'a Setup,
    thread: u8,
    printed: u32,
}

impl<'a> Model for Caller<'a> {
    ghost use Rattle.word_semantics.specs.Library.{Caller as CallerView};

    ghost Value = { CallerView };

    ghost view = { λ c. record { sites = c.sites.now; setup = c.setup.now; thread = c.thread; printed = c.printed } };
}

impl<'a> Caller<'a> {
    /// A thread that calls, with as many bytes printed before.
    pub fn new(sites: &'a [Site], setup: &'a Setup, thread: u8, printed: u32) -> Caller<'a>
        ensures { result ≡ record { sites = sites.now; setup = setup.now; thread = thread; printed = printed } }
    {
        Caller {
            sites,
            setup,
            thread,
            printed,
        }
    }

    /// The sites of its code.
    pub fn sites(&self) -> &'a [Site]
        ensures { result.now ≡ self.now.sites }
    {
        self.sites
    }

    /// The setup in which it runs.
    pub fn setup(&self) -> &'a Setup
        ensures { result.now ≡ self.now.setup }
    {
        self.setup
    }

    /// Its number.
    pub fn thread(&self) -> u8
        ensures { result ≡ self.now.thread }
    {
        self.thread
    }

    /// How many bytes it has printed.
    pub fn printed(&self) -> u32
        ensures { result ≡ self.now.printed }
    {
        self.printed
    }
}
