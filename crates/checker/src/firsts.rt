//! The first line of each wire.
ghost use Rattle.std.specs.Prelude.{◌≡◌, ◌≤◌, IfOk, vec_len};
ghost use Rattle.checker.specs.Found.{roles, site_lines, Found};
ghost use Rattle.checker.specs.Firsts.{RepeatSite, Blank, noted, repeated_role, wiped};

use crate::role::Role;
use crate::rules::first_line;
use crate::site::Site;
use std::alloc::{AllocError, Global};

/// The smallest line of each wire, by the wire's number.
#[derive(Drop)]
pub(crate) struct FirstLines {
    lines: Vec<Option<u16>>,
    ghost room: { 4096 ≤ vec_len lines },
}

impl FirstLines {
    /// Reserves the lines of 4,096 wires; at first none has a line.
    pub(crate) fn new(heap: Global) -> Result<FirstLines, AllocError>
        ensures { IfOk result (λ f. Blank f.lines.items) }
    {
        let mut lines = Vec::new(heap);
        lines.resize(4096, None)?;
        Ok(FirstLines { lines })
    }

    // Notes the line of a wire, if no smaller one is noted.
    fn note(&mut self, site: &Site)
        ensures { self.new.lines.items ≡ noted site.now.role site.now.line self.old.lines.items }
    {
        if let Role::Lead { wire, .. } = site.role {
            let first = &mut self.lines[wire as usize];
            *first = Some(first.map_or(site.line, |line| line.min(site.line)));
        }
    }

    // Whether the wire stands on an earlier line too.
    fn is_repeated(&self, site: &Site) -> bool
        ensures { result ≡ repeated_role self.now.lines.items site.now.role site.now.line }
    {
        match site.role {
            Role::Lead { wire, .. } => self.lines[wire as usize].is_some_and(|first| first
                < site.line),
            _ => false,
        }
    }

    // Takes the line of a wire away.
    fn wipe(&mut self, site: &Site)
        ensures { self.new.lines.items ≡ wiped site.now.role self.old.lines.items }
    {
        if let Role::Lead { wire, .. } = site.role {
            self.lines[wire as usize] = None;
        }
    }

    /// The smallest line on which a wire stands that stands on an earlier line too.
    pub(crate) fn first_repeated(&mut self, sites: &[Site]) -> Option<u16>
        requires blank { Blank self.old.lines.items }
        ensures found { Found (RepeatSite (roles sites.now) (site_lines sites.now)) (site_lines sites.now) result }
        ensures blank { Blank self.new.lines.items }
    {
        for site in sites {
            self.note(site);
        }
        let repeated = first_line(sites, |site| self.is_repeated(site));
        for site in sites {
            self.wipe(site);
        }
        repeated
    }
}
