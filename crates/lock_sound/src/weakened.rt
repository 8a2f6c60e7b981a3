ghost use Rattle.std.specs.Prelude.{◌≡◌};
ghost use Rattle.lock_sound.specs.Weakened.{IsAnalysed};

use facts::{Pair, PointsTo, Summary};
use flow_code::Code;
use profiles::Profile;
use rr_base::List;
use std::marker::Model;
use weak_lock_facts::Grains;

/// A valid code without weak locks, to which places its registers and cells may point, the summaries of its functions, its
/// race pairs, which functions may be at work at once, the grains of its racy accesses, and the code with its weak locks.
#[derive(Debug, Drop)]
pub struct Weakened {
    plain: Code,
    points: PointsTo,
    summaries: List<Summary>,
    pairs: List<Pair>,
    profile: Profile,
    grains: Grains,
    weak: Code,
}

impl Model for Weakened {
    ghost use Rattle.lock_sound.specs.Weakened.{Analysed, IsAnalysed};

    ghost Value = { Analysed };

    ghost view = { λ w. record { plain = w.plain; points = w.points; summaries = w.summaries; pairs = w.pairs; profile = w.profile; grains = w.grains; weak = w.weak } };

    ghost invariant = { λ w. IsAnalysed (record { plain = w.plain; points = w.points; summaries = w.summaries; pairs = w.pairs; profile = w.profile; grains = w.grains; weak = w.weak }) };
}

impl Weakened {
    /// The code with the answers of the analyses for it and for the profile, and with its weakened code.
    pub fn of(
        plain: Code,
        points: PointsTo,
        summaries: List<Summary>,
        pairs: List<Pair>,
        profile: Profile,
        grains: Grains,
        weak: Code,
    ) -> Weakened
        requires { IsAnalysed (record { plain = plain; points = points; summaries = summaries; pairs = pairs; profile = profile; grains = grains; weak = weak }) }
        ensures { result ≡ record { plain = plain; points = points; summaries = summaries; pairs = pairs; profile = profile; grains = grains; weak = weak } }
    {
        Weakened {
            plain,
            points,
            summaries,
            pairs,
            profile,
            grains,
            weak,
        }
    }

    /// The code without weak locks.
    pub fn plain(&self) -> &Code
        ensures value { result.now ≡ self.now.plain }
        ensures kept { IsAnalysed self.now }
    {
        &self.plain
    }

    /// The code with its weak locks.
    pub fn code(&self) -> &Code
        ensures value { result.now ≡ self.now.weak }
        ensures kept { IsAnalysed self.now }
    {
        &self.weak
    }

    /// To which places the code's registers and cells may point.
    pub fn points(&self) -> &PointsTo
        ensures value { result.now ≡ self.now.points }
        ensures kept { IsAnalysed self.now }
    {
        &self.points
    }

    /// The summaries of its functions.
    pub fn summaries(&self) -> &List<Summary>
        ensures value { result.now ≡ self.now.summaries }
        ensures kept { IsAnalysed self.now }
    {
        &self.summaries
    }

    /// Its race pairs.
    pub fn pairs(&self) -> &List<Pair>
        ensures value { result.now ≡ self.now.pairs }
        ensures kept { IsAnalysed self.now }
    {
        &self.pairs
    }

    /// Which functions may be at work at once.
    pub fn profile(&self) -> &Profile
        ensures { result.now ≡ self.now.profile }
    {
        &self.profile
    }

    /// The grains of its racy accesses.
    pub fn grains(&self) -> &Grains
        ensures value { result.now ≡ self.now.grains }
        ensures kept { IsAnalysed self.now }
    {
        &self.grains
    }
}
