// Why the words of a command line ask for nothing.
use tool_location::UrlFault;

/// A value that is none of its option.
#[derive(Clone, Copy)]
pub struct BadValue<'a> {
    /// The option as it stands in the help.
    pub option: &'a str,
    pub value: &'a str,
    pub wanted: &'a str,
}

/// Why the words of a command line ask for nothing.
#[derive(Clone, Copy)]
pub enum UsageError<'a> {
    /// A value is none of its option.
    Value(BadValue<'a>),
    /// A number has a sign.
    Number,
    /// Memory was refused.
    Memory,
}

impl<'a> UsageError<'a> {
    /// A value that is none of its option, and what is wanted there.
    pub(crate) fn of(option: &'a str, value: &'a str, wanted: &'a str) -> UsageError<'a> {
        UsageError::Value(BadValue {
            option,
            value,
            wanted,
        })
    }

    /// A word that is a URL names no place.
    pub fn of_url(option: &'a str, word: &'a str, fault: UrlFault) -> UsageError<'a> {
        match fault {
            UrlFault::Memory => UsageError::Memory,
            fault => UsageError::Value(BadValue {
                option,
                value: word,
                wanted: fault.wanted(),
            }),
        }
    }
}
