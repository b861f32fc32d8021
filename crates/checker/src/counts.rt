//! How often each binder's variables are used.
ghost use Rattle.std.specs.Prelude.{◌≡◌, ◌≤◌, length, map, vec_len};
ghost use Rattle.checker.specs.Found.{roles};
ghost use Rattle.checker.specs.Counts.{Counted, Countable, cleared, counted_in, misused_role};

use crate::role::Role;
use crate::site::Site;
use std::alloc::{AllocError, Global};

/// The uses of the variables of each binder, by the binder's number and the variable's place.
#[derive(Drop)]
pub(crate) struct UseCounts {
    rows: Vec<[u16; 8]>,
    ghost room: { 4096 ≤ vec_len rows },
}

impl UseCounts {
    /// Reserves the counts of 4,096 binders.
    pub(crate) fn new(heap: Global) -> Result<UseCounts, AllocError> {
        let mut rows = Vec::new(heap);
        rows.resize(4096, [0; 8])?;
        Ok(UseCounts { rows })
    }

    // Takes away what was counted of the binder.
    fn clear(&mut self, site: &Site)
        ensures { self.new.rows.items ≡ cleared site.now.role self.old.rows.items }
    {
        if let Role::Use { binder: number, .. } | Role::Opening { number, .. } = site.role {
            self.rows[number as usize] = [0; 8];
        }
    }

    // Counts the use of a variable.
    fn note(&mut self, site: &Site)
        requires { Countable self.old.rows.items site.now.role }
        ensures { self.new.rows.items ≡ counted_in site.now.role self.old.rows.items }
    {
        if let Role::Use { binder, place, .. } = site.role {
            self.rows[binder as usize][place as usize] += 1;
        }
    }

    /// Counts the uses of the sites' binders.
    pub(crate) fn count(&mut self, sites: &[Site])
        requires { length sites.now ≤ 4096 }
        ensures { Counted (roles sites.now) self.new.rows.items }
    {
        for site in sites {
            self.clear(site);
        }
        for site in sites {
            self.note(site);
        }
    }

    /// Whether one of the binder's variables is not used once.
    pub(crate) fn is_misused(&self, site: &Site) -> bool
        ensures { result ≡ misused_role self.now.rows.items site.now.role }
    {
        match site.role {
            Role::Opening { number, pattern } => self.rows[number as usize][..pattern as usize]
                .iter()
                .any(|uses| *uses != 1),
            _ => false,
        }
    }
}
