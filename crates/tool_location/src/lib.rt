//! Files of servers, as a word or a URL names them (own choice, after RFC 3986, section 3.2; RFC 1738, section 3.2), and where they go by their name.
//! No IO.
#![tactic(auto)]

mod fault;
mod laws;
mod location;
mod placing;
mod rows;
mod url_place;

pub use fault::UrlFault;
pub use laws::one_place;
pub use location::{Location, place_of};
pub use placing::{joined, last_part, place_for, says_directory};
pub use rows::{refused_urls, urls};
pub use url_place::{UrlPlace, is_url, url_place_of};
