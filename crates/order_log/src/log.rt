ghost use Rattle.std.specs.Prelude.{◌≡◌, ◌<◌, ◌≤◌, length};
ghost use Rattle.std.specs.List.{AllByRecursion};
ghost use Rattle.sync_objects.specs.Names.{Fits};
ghost use Rattle.order_log.specs.Log.{AreWithin, HasNames, LogView};

use profiles::Profile;
use rr_base::List;
use std::marker::Model;
use sync_objects::{Entry, Setup};

/// The log of a run: what it was set up with, the functions that it took for parallel, and its operations in
/// their order. Each operation fits its object, the functions' names are names of the language, and:
///
/// - threads and slots are below the setup's slots, cells below 2^22;
/// - a lock is at most 65,471, a stripe at most 7;
/// - a count is at most the setup's limit, that of an ending entry one more;
/// - a thread has at most 6 ending entries, and at most 1,048,576 others.
#[derive(Debug, Drop)]
pub struct Log {
    setup: Setup,
    profile: Profile,
    entries: List<Entry>,
}

impl Model for Log {
    ghost use Rattle.order_log.specs.Log.{LogView, IsLog, KeepsLimits};

    ghost Value = { LogView };

    ghost view = { λ l. record { setup = l.setup; profile = l.profile; entries = l.entries } };

    ghost invariant = { λ l. let v : LogView = record { setup = l.setup; profile = l.profile; entries = l.entries } in IsLog v × KeepsLimits v };
}

// The numbers in a slice of bytes are bytes.
fn law_bytes(bytes: &[u8])
    ensures { AllByRecursion (λ b. b < 256) bytes.now }
{}

impl Log {
    /// A log of these parts.
    pub fn new(setup: Setup, profile: Profile, entries: List<Entry>) -> Log
        requires names { HasNames profile }
        requires fitting { AllByRecursion (λ e. Fits e.op e.obj) entries }
        requires within { AreWithin setup entries }
        ensures { result ≡ record { setup = setup; profile = profile; entries = entries } }
    {
        law_bytes(setup.input().as_slice());
        Log {
            setup,
            profile,
            entries,
        }
    }

    /// In which setup its run was made.
    pub fn setup(&self) -> &Setup
        ensures { result.now ≡ self.now.setup }
    {
        &self.setup
    }

    /// The functions that the run took for parallel. Their names are names of the language.
    pub fn profile(&self) -> &Profile
        ensures value { result.now ≡ self.now.profile }
        ensures names { HasNames self.now.profile }
    {
        &self.profile
    }

    /// The operations in their order.
    pub fn entries(&self) -> &List<Entry>
        ensures value { result.now ≡ self.now.entries }
        ensures fitting { AllByRecursion (λ e. Fits e.op e.obj) self.now.entries }
        ensures within { AreWithin self.now.setup self.now.entries }
        ensures few { length self.now.entries ≤ 16777312 }
    {
        &self.entries
    }
}
