//! A walk over a program's table that notes what the rules need to know of each node.
ghost use Rattle.std.specs.Prelude.{◌≡◌, ◌+◌, ◌<◌, ◌≤◌, true, [], length, reverse, take, drop, vec_len, vec_capacity, All};
ghost use Rattle.terms.specs.Term.{Terms, count};
ghost use Rattle.sheet.specs.Reading.{term_of, lines_of};
ghost use Rattle.sheet.specs.Located.{nodes_in, lines_in};
ghost use Rattle.checker.specs.Sites.{Forest, Stand, resolve, role_at, sites, sitess, Walked};
ghost use Rattle.checker.specs.Found.{roles, site_lines};

use crate::role::{Frame, Role};
use crate::site::Site;
use sheet::located::LocatedNode;
use sheet::program::Program;
use std::alloc::{AllocError, Global};
use terms::{Kind, Node};

/// The binders around the node where the walk stands, nearest last, and the sites of the nodes before it.
#[derive(Drop)]
pub(crate) struct Walk {
    frames: Vec<Frame>,
    sites: Vec<Site>,
    ghost frame_room: { 4096 ≤ vec_capacity frames },
    ghost site_room: { 4096 ≤ vec_capacity sites },
    ghost few: { vec_len sites ≤ 4096 },
    ghost numbered: { All (λ f. f.number < 4096) frames.items },
}

impl Walk {
    /// Reserves the memory for walks over up to 4,096 nodes.
    pub(crate) fn new(heap: Global) -> Result<Walk, AllocError> {
        Ok(Walk {
            frames: Vec::with_capacity(heap, 4096)?,
            sites: Vec::with_capacity(heap, 4096)?,
        })
    }

    /// The sites of the nodes that were walked over.
    pub(crate) fn sites(&self) -> &[Site]
        ensures { result.now ≡ self.now.sites.items }
    {
        self.sites.as_slice()
    }

    // The role of a variable that stands within `bangs` bangs.
    fn resolved(&self, up: u16, place: u8, bangs: u16) -> Role
        ensures { result ≡ resolve (reverse self.now.frames.items) bangs up place }
    {
        match self.frames.len().checked_sub(up as usize + 1) {
            Some(index) => {
                let frame = self.frames[index];
                Role::Use {
                    binder: frame.number,
                    pattern: frame.pattern,
                    place,
                    banged: frame.depth < bangs,
                }
            }
            None => Role::Free,
        }
    }

    // The role of the node with the number `at`, which stands within `bangs` bangs.
    fn role_of(&self, node: Node, at: u16, bangs: u16) -> Role
        ensures { result ≡ role_at (reverse self.now.frames.items) bangs at node.kind }
    {
        match node.kind {
            Kind::Variable { place, up } => self.resolved(up, place, bangs),
            Kind::Wire(wire) => Role::Lead {
                wire: wire.number(),
                banged: 0 < bangs,
            },
            Kind::Binder(pattern) => Role::Opening {
                number: at,
                pattern,
            },
            _ => Role::Other,
        }
    }

    // Notes the sites of the next `pending` terms, which stand within `bangs` bangs. It calls itself, since only the
    // terms show where the body of a bang or a binder ends.
    fn note_terms(&mut self, table: &[LocatedNode], pending: usize, bangs: u16)
        requires small { length table.now ≤ 4096 }
        requires stand { Stand (nodes_in table.now) (vec_len self.old.sites) pending }
        requires few { bangs ≤ vec_len self.old.sites }
        requires deep { vec_len self.old.frames ≤ vec_len self.old.sites }
        requires lines { site_lines self.old.sites.items ≡ take (vec_len self.old.sites) (lines_in table.now) }
        ensures walked { (ts : Terms) → Forest (drop (vec_len self.old.sites) (nodes_in table.now)) ts → count ts ≡ pending → Walked (sitess (reverse self.old.frames.items) bangs (vec_len self.old.sites) ts) self.old.sites self.new.sites self.old.frames self.new.frames }
        ensures lines { site_lines self.new.sites.items ≡ take (vec_len self.new.sites) (lines_in table.now) }
    {
        if pending == 0 {
            return;
        }
        let at = self.sites.len();
        let located = table[at];
        let role = self.role_of(located.node, at as u16, bangs);
        self.sites.push_reserved(Site {
            role,
            line: located.line,
        });
        match located.node.kind {
            Kind::Bang => {
                self.note_terms(table, 1, bangs + 1);
                self.note_terms(table, pending - 1, bangs);
            }
            Kind::Binder(pattern) => {
                self.frames.push_reserved(Frame {
                    number: at as u16,
                    pattern,
                    depth: bangs,
                });
                self.note_terms(table, 1, bangs);
                let _own = self.frames.pop();
                self.note_terms(table, pending - 1, bangs);
            }
            _ => self.note_terms(table, pending - 1 + located.node.parts(), bangs),
        }
    }

    /// Notes the sites of a program's term.
    pub(crate) fn note(&mut self, program: &Program)
        ensures roles { roles self.new.sites.items ≡ sites [] 0 0 (term_of program.now) }
        ensures lines { site_lines self.new.sites.items ≡ lines_of program.now }
    {
        self.frames.clear();
        self.sites.clear();
        self.note_terms(program.table().as_slice(), 1, 0);
    }
}
