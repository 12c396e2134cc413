//! Completion scripts, made of the rows of the commands.

mod bash;
mod fish;
mod zsh;

use crate::argument::{Argument, Row};
use crate::commands::{SHOW_HELP, SHOW_VERSION, rows};
use crate::names;
use crate::page::Page;

/// Adds the script for a shell, `bash`, `zsh` or `fish`.
pub fn add_script(page: &mut Page, shell: &str) {
    match shell {
        names::FISH => fish::add_script(page),
        names::ZSH => zsh::add_script(page),
        _ => bash::add_script(page),
    }
}

/// Adds the names of an option, short and long, with a space before each.
fn add_names(page: &mut Page, option: &Argument) {
    page.add_char_within(" -", option.short(), "");
    page.add_all(&[" --", option.id]);
}

/// Adds the names of the options of the program, with a space before each.
fn add_program_options(page: &mut Page) {
    add_names(page, &SHOW_HELP);
    add_names(page, &SHOW_VERSION);
}

/// How a shell writes the cases of its script: one for the value of an option, over the command and the word
/// before, and one for all else that may follow a command.
struct Cases {
    /// Before the name of the command.
    head: &'static str,
    /// What is done for a value that is not listed.
    any: &'static str,
    /// Around the values of an option.
    value: (&'static str, &'static str),
    /// Before the values of the positional arguments, before the options, and at the end.
    rest: (&'static str, &'static str, &'static str),
}

impl Cases {
    /// Adds the case of the value of an option.
    fn add_value(&self, page: &mut Page, row: &Row, option: &Argument) {
        page.add_all(&[self.head, row.name, " --", option.id, "') "]);
        if option.values().is_empty() {
            page.add(self.any);
        }
        page.add_words_within(self.value.0, option.values(), self.value.1);
    }

    /// Adds the case of all that may follow a command but the values of its options.
    fn add_rest(&self, page: &mut Page, row: &Row) {
        page.add_all(&[self.head, row.name, " '*) ", self.rest.0]);
        for argument in row.arguments {
            if !argument.is_option() {
                page.add_words(argument.values());
            }
        }
        page.add(self.rest.1);
        for argument in row.arguments {
            if argument.is_option() {
                add_names(page, argument);
            }
        }
        add_names(page, &SHOW_HELP);
        page.add(self.rest.2);
    }

    /// Adds the cases of a command.
    fn add_command(&self, page: &mut Page, row: &Row) {
        for argument in row.arguments {
            if argument.value().is_some() {
                self.add_value(page, row, argument);
            }
        }
        self.add_rest(page, row);
    }

    /// Adds the cases of all commands.
    fn add(&self, page: &mut Page) {
        for row in rows() {
            self.add_command(page, &row);
        }
    }
}

/// Adds words in single quotes, with `quote` in place of each quote.
fn add_quoted(page: &mut Page, words: &str, quote: &str) {
    page.add("'");
    for c in words.chars() {
        if c == '\'' {
            page.add(quote);
        } else {
            page.add_char(c);
        }
    }
    page.add("'");
}
