// Which file or directory of which server a word names, and who asks there.
use crate::host::is_host;
use crate::refusal::UsageError;
use clap::ArgMatches;
use std::alloc::Global;
use tool_location::{Location, UrlPlace, is_url, place_of, url_place_of};
use tool_login::User;

/// The URL that a word is; none where it is none. Fails where no file is named by it, or memory is refused; `option` is told then.
pub fn url_in<'a>(
    alloc: Global,
    option: &'a str,
    word: &'a str,
) -> Result<Option<UrlPlace>, UsageError<'a>> {
    if !is_url(word) {
        return Ok(None);
    }
    match url_place_of(alloc, word) {
        Ok(url) => Ok(Some(url)),
        Err(fault) => Err(UsageError::of_url(option, word, fault)),
    }
}

/// The same of each word, in their order.
pub fn urls_in<'a>(
    alloc: Global,
    option: &'a str,
    words: &[&'a str],
) -> Result<Vec<Option<UrlPlace>, Global>, UsageError<'a>> {
    let mut urls = Vec::new(alloc);
    for word in words {
        if urls.push(url_in(alloc, option, *word)?).is_err() {
            return Err(UsageError::Memory);
        }
    }
    Ok(urls)
}

/// The place that a word names, which is this URL, if it is one.
pub fn location_in<'a>(word: &'a str, url: Option<&'a UrlPlace>) -> Option<Location<'a>> {
    match url {
        Some(url) => Some(Location {
            host: url.host.as_str(),
            port: url.port,
            path: url.path.as_str(),
        }),
        None => place_of(word),
    }
}

/// Refused where what a word names as the host of a place is no address, and can't be a name.
pub(crate) fn host_in<'a>(
    option: &'a str,
    word: &'a str,
    place: Location<'a>,
) -> Result<Location<'a>, UsageError<'a>> {
    if is_host(place.host) {
        Ok(place)
    } else {
        Err(UsageError::of(
            option,
            word,
            "a name or an address is wanted as HOST: four numbers from 0 to 255 with points between them, or IPv6 without a dotted tail",
        ))
    }
}

/// What is wanted in the place of a word that names none: what it lacks, where that is clear.
pub(crate) fn wanted_of(word: &str) -> &'static str {
    let Some((server, _)) = word.split_once('/') else {
        return "a path is wanted after the server, as HOST:PORT/PATH; / alone is its root";
    };
    if !server.starts_with('[') && server.matches(':').count() > 1 {
        "an IPv6 address is wanted in brackets, as [::1]:2121/PATH"
    } else {
        "an address or a name, a port from 1 to 65535 and a path are wanted, as HOST:PORT/PATH"
    }
}

/// Who asks: whom `--user` names, and else whom the URL does; the password of a URL is that of the user whom it names.
pub fn user_in<'a>(words: &'a ArgMatches<'_>, url: Option<&'a UrlPlace>) -> User<'a> {
    let named = words.get_str("user");
    User {
        name: match named {
            Some(_) => named,
            None => user_of(url),
        },
        password_file: words.get_str("password-file"),
        password: password_of(url, named),
        is_of_url: named.is_none() && user_of(url).is_some(),
    }
}

/// Whom a URL names.
fn user_of<'a>(url: Option<&'a UrlPlace>) -> Option<&'a str> {
    filled(url?.user.as_str())
}

/// The password of a URL, where nobody else is named than whom it names.
fn password_of<'a>(url: Option<&'a UrlPlace>, named: Option<&str>) -> Option<&'a str> {
    let url = url?;
    match named {
        Some(name) if name.is_empty() || name != url.user.as_str() => None,
        _ => filled(url.password.as_str()),
    }
}

/// A text that is not empty.
fn filled(text: &str) -> Option<&str> {
    if text.is_empty() { None } else { Some(text) }
}
