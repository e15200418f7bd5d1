//! Schemas: tables with their attributes and files, with the reading and writing of schema files. The texts, lists and
//! limits and the grammar of lines that it stands on are passed on, so that callers need no other crate.
#![tactic(auto)]

mod printing;
pub mod schema;
mod schema_file;
mod schema_groups;
mod schema_lines;

pub use line_grammar::{
    Constant, Content, FileLines, Gather, Group, Line, LineCause, LineFault, LineTokens, ListItem,
    Mark, Name, Part, Phrase, Quoted, Token, Tokens, Unread, Writes, content_of, gather_all,
    no_lines, push_line, push_list, push_mark, push_number, push_quoted, push_spaced_list,
    push_token, read_groups, read_lines, read_tokens, split_line,
};
pub use printing::print_schema;
pub use schema::{Attr, Domain, Schema, SchemaCause, SchemaFault, Table};
pub use schema_file::parse_schema;
pub use text_lists::{Limit, Limits, List, Text, Texts, bounds, first_repeated, text};
