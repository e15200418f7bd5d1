//! The markup of a page, in three tables. All else in it are escaped texts and numbers.
ghost use Rattle.std.specs.Prelude.{◌≡◌, ◌++◌, OnOk};
ghost use Rattle.page_text.specs.Markup.{markup, more_text, section_markup, style, word_markup};

use html_text::push_more;
use std::alloc::AllocError;

/// A piece of markup.
#[derive(Clone, Copy)]
pub enum Piece {
    Head,
    StyleOpen,
    StyleClose,
    AsRead,
    AfterScript,
    Tables,
    Row,
    RowEnd,
    Rules,
    RulesEnd,
    DepLink,
    CindLink,
    LinkText,
    LinkEnd,
    Break,
    Bar,
    Slash,
    BarEnd,
    NoBar,
    DepSection,
    CindSection,
    Heading,
    HeadingEnd,
    Violations,
    Groups,
    Keys,
    CountsEnd,
    SectionEnd,
    GroupTable,
    CaptionEnd,
    MissingTable,
    Columns,
    TableEnd,
    FirstCell,
    Cell,
    CellEnd,
    LastCellEnd,
    WideCell,
    More,
    MoreEnd,
    MoreGroups,
    MoreGroupsEnd,
    Small,
    Dot,
    SmallEnd,
    Blank,
    Star,
    Colon,
    Arrow,
    Equals,
    AnyValues,
    Where,
    SideOpen,
    SideMid,
    SideClose,
    In,
    MustBe,
    OneOf,
    NoneOf,
    Checks,
    NoChecks,
    ChecksOpen,
    Item,
    ItemEnd,
    ChecksClose,
    Foot,
}

#[tactic(auto, unfolding(crate::specs::Markup::markup))]
pub fn markup(piece: Piece) -> &'static [u8]
    ensures { result.now ≡ markup piece }
{
    match piece {
        Piece::Head =>
            b"<!DOCTYPE html>\n<html lang=\"en\"><head><meta charset=\"utf-8\"><meta name=\"viewport\" content=\"width=device-width, initial-scale=1\"><title>",
        Piece::StyleOpen => b"</title><style>\n",
        Piece::StyleClose => b"</style></head><body>\n<h1>",
        Piece::AsRead =>
            b"</h1>\n<p>The tables as they were read, without the script. Violations: <b>",
        Piece::AfterScript => b"</h1>\n<p>The tables after the script. Violations: <b>",
        Piece::Tables =>
            b"</b></p>\n<h2>Tables</h2>\n<div class=\"wide\"><table>\n<tr><th>Table</th><th>File</th><th class=\"n\">Rows read</th><th class=\"n\">Rows now</th></tr>\n",
        Piece::Row => b"<tr>",
        Piece::RowEnd => b"</tr>\n",
        Piece::Rules =>
            b"</table></div>\n<p><small>Row ids are the numbers of the records of the file. Rows with * came by the script.</small></p>\n<h2>Rules</h2>\n<div class=\"wide\"><table>\n<tr><th>Rule</th><th class=\"n\">Violations</th><th class=\"w\"></th></tr>\n",
        Piece::RulesEnd => b"</table></div>\n",
        Piece::DepLink => b"<a href=\"#d",
        Piece::CindLink => b"<a href=\"#c",
        Piece::LinkText => b"\">",
        Piece::LinkEnd => b"</a>",
        Piece::Break => b"<br>",
        Piece::Bar => b"<td class=\"w\"><i style=\"width:calc(100%*",
        Piece::Slash => b"/",
        Piece::BarEnd => b")\"></i></td></tr>\n",
        Piece::NoBar => b"<td class=\"w\"></td></tr>\n",
        Piece::Checks => b"<h2>What check finds</h2>\n",
        Piece::NoChecks => b"<p>Nothing.</p>\n",
        Piece::ChecksOpen =>
            b"<p><small>In the rules, and in the tables as they were read.</small></p>\n<ul>\n",
        Piece::Item => b"<li>",
        Piece::ItemEnd => b"</li>\n",
        Piece::ChecksClose => b"</ul>\n",
        Piece::Foot => b"</body></html>\n",
        other => section_markup(other),
    }
}

#[tactic(auto, unfolding(crate::specs::Markup::section_markup))]
fn section_markup(piece: Piece) -> &'static [u8]
    ensures { result.now ≡ section_markup piece }
{
    match piece {
        Piece::DepSection => b"<section id=\"d",
        Piece::CindSection => b"<section id=\"c",
        Piece::Heading => b"\"><h3>",
        Piece::HeadingEnd => b"</h3>\n<p>",
        Piece::Violations => b"</p>\n<p>Violations: ",
        Piece::Groups => b". Groups: ",
        Piece::Keys => b". Missing keys: ",
        Piece::CountsEnd => b".</p>\n",
        Piece::SectionEnd => b"</section>\n",
        Piece::GroupTable => b"<table><caption>",
        Piece::CaptionEnd => b"</caption><thead><tr><th>",
        Piece::MissingTable => b"<table><thead><tr><th>",
        Piece::Columns => b"</th><th class=\"n\">Rows</th><th>Row ids</th></tr></thead><tbody>\n",
        Piece::TableEnd => b"</tbody></table>\n",
        Piece::FirstCell => b"<tr><td>",
        Piece::Cell => b"<td>",
        Piece::CellEnd => b"</td>",
        Piece::LastCellEnd => b"</td></tr>\n",
        Piece::WideCell => b"<tr><td colspan=\"3\">",
        Piece::More => b"<em>",
        Piece::MoreEnd => b"</em>",
        Piece::MoreGroups => b"<p>",
        Piece::MoreGroupsEnd => b"</p>\n",
        other => word_markup(other),
    }
}

#[tactic(auto, unfolding(crate::specs::Markup::word_markup))]
fn word_markup(piece: Piece) -> &'static [u8]
    ensures { result.now ≡ word_markup piece }
{
    match piece {
        Piece::Small => b"<small>",
        Piece::Dot => b".",
        Piece::SmallEnd => b"</small> ",
        Piece::Blank => b" ",
        Piece::Star => b"* ",
        Piece::Colon => b": ",
        Piece::Arrow => b"&rarr; ",
        Piece::Equals => b"= ",
        Piece::AnyValues => b"any values ",
        Piece::Where => b"where ",
        Piece::SideOpen => b"[ ",
        Piece::SideMid => b"; ",
        Piece::SideClose => b"] ",
        Piece::In => b"in ",
        Piece::MustBe => b"must be ",
        Piece::OneOf => b"must be one of ",
        Piece::NoneOf => b"must be none of ",
        _ => b"",
    }
}

#[tactic(auto, unfolding(crate::specs::Markup::style))]
pub fn style() -> &'static [u8]
    ensures { result.now ≡ style }
{
    b":root{color-scheme:light dark;--ink:#1c2733;--soft:#5b6b7b;--line:#d5dde5;--back:#fff;--chip:#eef3f8;--bar:#c4442e;--odd:#ffd9cf}\n@media(prefers-color-scheme:dark){:root{--ink:#e6edf3;--soft:#9aa9b8;--line:#39434d;--back:#14191f;--chip:#222b35;--bar:#e8705b;--odd:#6b2a1e}}\nbody{margin:0 auto;max-width:60rem;padding:1rem;color:var(--ink);background:var(--back);font:16px/1.45 system-ui,sans-serif}\nh1{font-size:1.5rem;margin:.2rem 0}\nh2{font-size:1.2rem;margin:2rem 0 .4rem}\nh3{font-size:1.05rem;margin:0}\nh1,h3,p,td,caption{overflow-wrap:anywhere}\np{margin:.3rem 0}\na{color:inherit}\n.wide{overflow-x:auto}\ntable{border-collapse:collapse;width:100%}\nth,td{padding:.25rem .6rem .25rem 0;border-bottom:1px solid var(--line);text-align:left;vertical-align:top}\nth,caption,small,em{color:var(--soft);font-weight:normal;font-style:normal;font-size:.85rem}\n.n{text-align:right;white-space:nowrap;width:5rem}\n.w{width:30%}\n.w i{display:block;height:.9rem;margin-top:.25rem;min-width:3px;border-radius:2px;background:var(--bar)}\ncode{background:var(--chip);border-radius:3px;padding:0 .3rem;font-size:.9em;white-space:pre-wrap}\nb,mark{white-space:pre-wrap;color:inherit}\ntd b,caption b{color:var(--ink);border-bottom:1px dotted var(--soft)}\nb:empty::after,mark:empty::after{content:\"empty\";font-style:italic;font-weight:normal;color:var(--soft)}\nmark{background:var(--odd);border-radius:3px;padding:0 .3rem}\nsection{border-top:3px solid var(--line);margin-top:1.6rem;padding-top:.6rem}\nsection table{margin-top:.8rem;border-left:4px solid var(--chip)}\nsection th,section td,caption{padding-left:.6rem}\ncaption{text-align:left;padding-bottom:.2rem}\nul{list-style:none;margin:.3rem 0;padding:0}\nli{padding:.15rem 0;border-bottom:1px solid var(--line);white-space:pre-wrap;overflow-wrap:anywhere}\n@media print{body{max-width:none;padding:0;font-size:10pt}.wide{overflow:visible}tr,h3,caption{break-inside:avoid;break-after:avoid}mark,code,.w i{-webkit-print-color-adjust:exact;print-color-adjust:exact}}\n"
}

pub fn push(out: &mut Vec<u8>, piece: Piece) -> Result<(), AllocError>
    ensures { OnOk result (out.new.items ≡ out.old.items ++ markup piece) }
{
    out.extend_from_slice(markup(piece))
}

/// Tells how many more there are, where the first so many were shown.
pub fn push_more_in(
    out: &mut Vec<u8>,
    front: Piece,
    first: usize,
    size: usize,
    behind: Piece,
) -> Result<(), AllocError>
    ensures { OnOk result (out.new.items ≡ out.old.items ++ more_text front first size behind) }
{
    push_more(out, markup(front), first, size, markup(behind))
}
