// Patterns of names and paths, with `*` and `?`: which files of a listing one chooses, and what a mirror leaves out by them (own choice). No IO.

mod chosen;
mod pattern;
pub mod rows;

pub use chosen::{
    chosen_entries, chosen_items, chosen_names, is_chosen, is_chosen_item, is_chosen_name,
    is_pattern,
};
pub use pattern::{is_excluded, matches};
