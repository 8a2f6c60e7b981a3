// The cells of objects.
ghost use Rattle.std.specs.Prelude.{◌≡◌};
ghost use Rattle.word_semantics.specs.Cells as spec;

use crate::pointers::site_at;
use rr_base::Site;

/// The size in cells of the site's objects, and 0 where the code doesn't have the site.
pub fn size_of(sites: &[Site], site: u16) -> u32
    ensures { result ≡ spec.size_of sites.now site }
{
    match site_at(sites, site) {
        Some(site) => site.layout.size,
        None => 0,
    }
}
