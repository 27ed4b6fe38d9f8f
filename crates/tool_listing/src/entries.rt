// A server's listings: what their lines say, of MLSD and of LIST, and how they look on a terminal, as octets that no terminal obeys and names of single
// files alone (own choice; RFC 3629, section 4; RFC 3659, section 7). No IO.

mod columns;
mod item;
mod json;
mod lines;
mod long;
mod name;
mod reading;
pub mod rows;
mod text;
mod unix_entry;
mod unix_line;

pub use columns::read_columns;
pub use item::{DirectoryListing, ItemFacts, ItemKind, ListedItem};
pub use json::{put_json_action, put_json_entries, put_json_lines, put_json_names};
pub use lines::{
    is_listed, put_entries, put_lines, put_names, strange_entries, strange_names, without_slash,
};
pub use long::put_long;
pub use name::is_name;
pub use reading::{items_of_columns, items_of_facts};
pub use text::{TextListing, lists_nothing, read_entries, read_lines};
pub use unix_entry::{UnixKind, UnixLine};
pub use unix_line::read_unix_line;
