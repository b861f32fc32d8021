//! Where the sites of a program's nodes break a rule.
ghost use Rattle.std.specs.Prelude.{◌≡◌, Bool};
ghost use Rattle.checker.specs.declared.site.Site.{Site};
ghost use Rattle.checker.specs.Found.{Tells, least_line};

use crate::site::Site;

/// The smallest line of the sites that break a rule.
pub(crate) fn first_line<F: Fn(&Site) -> bool>(sites: &[Site], breaks: F) -> Option<u16>
    requires { F.IsAlwaysCallable breaks }
    ensures { (test : Site → Bool) → Tells F.Fn breaks test → result ≡ least_line test sites.now }
{
    sites
        .iter()
        .filter(
            |site|
                requires { F.IsAlwaysCallable breaks }
                ensures { F.post breaks site.entry.now result }
            { breaks(site) },
        )
        .map(|site| site.line)
        .min()
}
