ghost use Rattle.std.specs.Prelude.{◌≡◌};
ghost use Rattle.profiles.specs.Profile.{Text};
ghost use Rattle.order_log.specs.Log.{LogView, IsLog};
ghost use Rattle.order_log.specs.Text.{IsTextOf};

/// No two logs have one text, whatever their numbers and the versions are.
pub fn law_one_text()
    ensures { (bytes : Text) (v w : LogView) → IsLog v → IsLog w → IsTextOf bytes v → IsTextOf bytes w → v ≡ w }
{}
