//! Files of lines, whatever their grammar. A file is read by one definition: its lines, the tokens of each line, and
//! what those tokens mean at their place. Writing spells tokens so that they are read again.
#![tactic(auto)]

pub mod causes;
pub mod cursor;
pub mod fault;
pub mod gather;
pub mod group;
pub mod lead;
pub mod line;
pub mod line_reading;
pub mod lines;
mod lists;
pub mod phrase;
pub mod phrases;
pub mod quoting;
pub mod reading;
pub mod token_lists;
pub mod tokens;
pub mod unread;
pub mod walk;
pub mod writing;

pub use causes::LineCause;
pub use cursor::Tokens;
pub use fault::LineFault;
pub use gather::Gather;
pub use group::Group;
pub use line::{Content, Line};
pub use line_reading::{FileLines, content_of, no_lines};
pub use lines::split_line;
pub use phrase::{ListItem, Phrase};
pub use phrases::{Constant, Name, Quoted};
pub use quoting::push_quoted;
pub use token_lists::read_tokens;
pub use tokens::{LineTokens, Mark, Token};
pub use unread::Unread;
pub use walk::{gather_all, read_groups, read_lines};
pub use writing::{
    Part, Writes, push_line, push_list, push_mark, push_number, push_spaced_list, push_token,
};
