// Octets that grow, kept in pages, of which none is copied when more come. No IO.

mod pages;
mod run;

pub use pages::Pages;
