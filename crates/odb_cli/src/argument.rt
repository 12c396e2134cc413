//! What a row of the table of commands consists of.

/// What an argument is, and which others it may be given with.
#[derive(Clone, Copy)]
pub enum Kind {
    /// A word that may be absent.
    Optional,
    /// Any number of words.
    Any,
    /// A word that may be absent, else one of these.
    MaybeOneOf(&'static [&'static str]),
    /// A word that has to be given, one of these.
    OneOf(&'static [&'static str]),
    /// A batch, which has to be given; with --lines a log, which may be absent.
    Batch,
    /// A second document, which has to be given; with --lines it is in the lines.
    Second,
    /// An option without a value.
    Flag,
    /// An option without a value that has a short name, too.
    ShortFlag(char),
    /// An option without a value, which may not be given with these.
    FlagWithout(&'static [&'static str]),
    /// An option without a value, which has to be given with this one.
    FlagOf(&'static str),
    /// An option with a value, which help calls by this name.
    Value(&'static str),
    /// An option with a value, which help calls by this name and which is one of these words.
    Choice(&'static str, &'static [&'static str]),
}

/// An argument of a command.
#[derive(Clone, Copy)]
pub struct Argument {
    /// The long name of an option, or the name by which help calls a positional argument.
    pub id: &'static str,
    pub kind: Kind,
    pub help: &'static str,
}

impl Argument {
    /// Tests whether it is an option.
    pub fn is_option(&self) -> bool {
        match self.kind {
            Kind::Flag | Kind::ShortFlag(_) | Kind::FlagWithout(_) | Kind::FlagOf(_) => true,
            _ => self.value().is_some(),
        }
    }

    /// Returns the short name of an option, if it has one.
    pub fn short(&self) -> Option<char> {
        match self.kind {
            Kind::ShortFlag(name) => Some(name),
            _ => None,
        }
    }

    /// Returns the name of the value of an option, if it has one.
    pub fn value(&self) -> Option<&'static str> {
        match self.kind {
            Kind::Value(name) | Kind::Choice(name, _) => Some(name),
            _ => None,
        }
    }

    /// Returns the values that it may have, if they are listed.
    pub fn values(&self) -> &'static [&'static str] {
        match self.kind {
            Kind::OneOf(words) | Kind::MaybeOneOf(words) | Kind::Choice(_, words) => words,
            _ => &[],
        }
    }
}

/// A command, with its arguments in the order in which help shows them.
#[derive(Clone, Copy)]
pub struct Row {
    pub name: &'static str,
    pub about: &'static str,
    /// The usage, in help and after an error.
    pub usage: &'static str,
    pub notes: &'static str,
    pub arguments: &'static [Argument],
}
