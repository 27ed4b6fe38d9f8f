//! The entries of a listing, and patterns over their names.
#![tactic(auto)]

pub mod entries;
pub mod pattern;

pub use entries::{
    DirectoryListing, ItemFacts, ItemKind, ListedItem, TextListing, UnixKind, UnixLine, is_listed,
    is_name, items_of_columns, items_of_facts, lists_nothing, put_entries, put_json_action,
    put_json_entries, put_json_lines, put_json_names, put_lines, put_long, put_names, read_columns,
    read_entries, read_lines, read_unix_line, strange_entries, strange_names, without_slash,
};
pub use pattern::{
    chosen_entries, chosen_items, chosen_names, is_chosen, is_chosen_item, is_chosen_name,
    is_excluded, is_pattern, matches,
};
