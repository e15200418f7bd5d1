//! A file read line by line, or group by group.

ghost use Rattle.std.specs.Prelude.{◌≡◌, ◌++◌, true, false, IfOk, OnOk, IfSome, IfNone, []};
ghost use Rattle.std.specs.Option.{option_to_list};
ghost use Rattle.std.specs.List.{AllByRecursion};
ghost use Rattle.line_grammar.specs.Faults.{GivesUnlessMemory, line_tells};
ghost use Rattle.line_grammar.specs.FileLines.{begins_with};
ghost use Rattle.line_grammar.specs.Groups.{in_turn, read_lines, read_groups};

use crate::fault::LineFault;
use crate::gather::Gather;
use crate::group::Group;
use crate::line::Line;
use crate::line_reading::{FileLines, no_lines};
use std::alloc::{AllocError, Global};
use text_lists::List;

/// Gathers all items, up to the first fault.
pub fn gather_all<X: Drop, G: Gather<X>>(
    alloc: Global,
    gathered: &mut G,
    items: List<X>,
) -> Result<(), LineFault<G::Cause>>
    requires fit { G.is_fit (G.made gathered.old) (G.gathered gathered.old) }
    ensures exact { GivesUnlessMemory line_tells (in_turn (G.with_item (G.made gathered.old)) (G.gathered gathered.old) items) (λ _. G.gathered gathered.new) result }
    ensures fit { OnOk result (G.is_fit (G.made gathered.new) (G.gathered gathered.new)) }
    ensures made { G.made gathered.new ≡ G.made gathered.old }
{
    for item in items.into_vec() {
        gathered.add(alloc, item)?;
    }
    Ok(())
}

/// Gathers the lines of a file that aren't passed over, up to the first fault.
#[tactic(auto, unfolding(crate::specs::Groups::read_lines))]
pub fn read_lines<'a, G: Gather<Line<'a>>>(
    alloc: Global,
    gathered: &mut G,
    bytes: &'a [u8],
) -> Result<(), LineFault<G::Cause>>
    requires fit { G.is_fit (G.made gathered.old) (G.gathered gathered.old) }
    ensures exact { GivesUnlessMemory line_tells (read_lines (G.with_item (G.made gathered.old)) (G.gathered gathered.old) bytes.now) (λ _. G.gathered gathered.new) result }
    ensures fit { OnOk result (G.is_fit (G.made gathered.new) (G.gathered gathered.new)) }
    ensures made { G.made gathered.new ≡ G.made gathered.old }
{
    let mut lines = FileLines::new(alloc, bytes);
    while let Some(line) = lines.next() {
        gathered.add(alloc, line)?;
    }
    Ok(())
}

/// The members at the front, and the line behind them.
fn members<'a>(
    alloc: Global,
    lines: &mut FileLines<'a>,
    member: &str,
) -> Result<(List<Line<'a>>, Option<Line<'a>>), AllocError>
    ensures lines { IfOk result (λ x. lines.old ≡ x.0 ++ (option_to_list x.1 ++ lines.new)) }
    ensures members { IfOk result (λ x. AllByRecursion (λ line. begins_with member.now line ≡ true) x.0) }
    ensures head { IfOk result (λ x. IfSome x.1 (λ line. begins_with member.now line ≡ false)) }
    ensures last { IfOk result (λ x. IfNone x.1 (lines.new ≡ [])) }
{
    let mut members = List::new(alloc);
    while let Some(line) = lines.next() {
        if !line.begins_with(member) {
            return Ok((members, Some(line)));
        }
        members.push(line)?;
    }
    Ok((members, None))
}

/// Gathers the groups of a file, up to the first fault. A member in front of any head is a bad line.
pub fn read_groups<'a, G: Gather<Group<'a>>>(
    alloc: Global,
    gathered: &mut G,
    member: &str,
    bytes: &'a [u8],
) -> Result<(), LineFault<G::Cause>>
    requires fit { G.is_fit (G.made gathered.old) (G.gathered gathered.old) }
    ensures exact { GivesUnlessMemory line_tells (read_groups G.Cause.causes member.now (G.with_item (G.made gathered.old)) (G.gathered gathered.old) bytes.now) (λ _. G.gathered gathered.new) result }
    ensures fit { OnOk result (G.is_fit (G.made gathered.new) (G.gathered gathered.new)) }
    ensures made { G.made gathered.new ≡ G.made gathered.old }
{
    let mut lines = FileLines::new(alloc, bytes);
    let (stray, mut next) = members(alloc, &mut lines, member)?;
    no_lines(stray.as_slice())?;
    while let Some(head) = next {
        let (members, behind) = members(alloc, &mut lines, member)?;
        gathered.add(alloc, Group { head, members })?;
        next = behind;
    }
    Ok(())
}
