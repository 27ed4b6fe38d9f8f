// Which places texts say.
use rows_base::Paper;
use tool_location::{Location, place_of};

/// Texts that say a place.
const SAID: &[&str] = &[
    "host/a",
    "host:2121/a/b.txt",
    "host:65535//a",
    "127.0.0.1:21/dir/",
    "[::1]/a",
    "[::1]:2121/a:b/[c]",
    "h/a b/c",
];

/// Texts that say none.
const UNSAID: &[&str] = &[
    "",
    "host",
    "host:2121",
    "/a",
    ":21/a",
    "host:/a",
    "host:65536/a",
    "host:0/a",
    "host:+1/a",
    "host:21:21/a",
    "::1/a",
    "[]/a",
    "[::1/a",
    "[::1]21/a",
    "[::1]:/a",
];

/// Puts each text and what it says.
pub(crate) fn rows(paper: &mut Paper) {
    for text in SAID {
        put(paper, text);
    }
    for text in UNSAID {
        put(paper, text);
    }
}

fn put(paper: &mut Paper, text: &str) {
    paper.put(b"\"");
    paper.put(text.as_bytes());
    paper.put(b"\": ");
    match place_of(text) {
        Some(place) => put_place(paper, place),
        None => paper.line(b"no place"),
    }
}

/// Puts the parts of a place, and the name that its path ends in.
fn put_place(paper: &mut Paper, place: Location<'_>) {
    paper.put(place.host.as_bytes());
    paper.put(b" ");
    paper.number(u64::from(place.port));
    paper.put(b" \"");
    paper.put(place.path.as_bytes());
    paper.put(b"\" \"");
    paper.put(place.name().as_bytes());
    paper.line(b"\"");
}
