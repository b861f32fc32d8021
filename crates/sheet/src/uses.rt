//! Which lines of a sheet are used as parts.
ghost use Rattle.std.specs.Prelude.{◌≡◌, ℕ, ◌-◌, ◌≤◌, List, length};
ghost use Rattle.sheet.specs.Sheet.{times};
ghost use Rattle.sheet.specs.Uses.{Marks, Marked, FirstUnused};

/// Marks the parts of the next line as used. None if one is not an earlier line, which has a mark in `used`, or is
/// marked already, by this very line too.
pub(crate) fn mark(parts: &[u16], used: &mut [bool]) -> Option<()>
    ensures { (ws : List ℕ) → Marks used.old ws → ((p : ℕ) → times p ws ≤ 1) → Marked (length used.old) ws parts.now used.new result }
{
    for part in parts {
        let part = *part as usize;
        match used.get(part) {
            Some(false) => used[part] = true,
            _ => return None,
        }
    }
    Some(())
}

/// The first line from 1 on, the last excepted, that is not marked.
pub(crate) fn first_unused(used: &[bool]) -> Option<u16>
    requires { length used.now ≤ 4097 }
    ensures { (ws : List ℕ) → Marks used.now ws → FirstUnused (length used.now - 1) ws result }
{
    let [_, lines @ .., _] = used else {
        return None;
    };
    let unused = lines.iter().position(|is_used| !*is_used)?;
    Some(unused as u16 + 1)
}
