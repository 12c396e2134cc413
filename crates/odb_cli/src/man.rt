//! The manual page, made of the rows of the commands.

use crate::argument::{Argument, Kind, Row};
use crate::commands::{PROGRAM_ABOUT, PROGRAM_NOTES, SHOW_HELP, SHOW_VERSION, rows};
use crate::page::Page;

const HEAD: &str = ".TH ODB_BATCH 1\n\
    .SH NAME\n\
    odb_batch \\- check, plan and replay OData JSON batch requests\n\
    .SH SYNOPSIS\n\
    .B odb_batch\n\
    [COMMAND] [ARGUMENTS]\n\
    .SH DESCRIPTION\n";

const COMMANDS: &str = ".SH COMMANDS\n\
    A refused document is reported by one line: the code, the name and the place of its first fault.\n";

/// Adds a text, in which a hyphen stays a hyphen.
fn add_plain(page: &mut Page, words: &str) {
    for c in words.chars() {
        match c {
            '-' => page.add("\\-"),
            '\\' => page.add("\\e"),
            _ => page.add_char(c),
        }
    }
}

/// Adds a line of text.
fn add_line(page: &mut Page, words: &str) {
    add_plain(page, words);
    page.add("\n");
}

/// Adds the name of an argument: the long name of an option, with the name of its value.
fn add_name(page: &mut Page, argument: &Argument) {
    if argument.is_option() {
        page.add("\\-\\-");
    }
    add_plain(page, argument.id);
    if let Some(value) = argument.value() {
        page.add_all(&[" ", value]);
    }
}

/// Adds what an argument means.
fn add_argument(page: &mut Page, argument: &Argument) {
    page.add(".TP\n.B ");
    page.add_char_within("\\-", argument.short(), ", ");
    add_name(page, argument);
    page.add("\n");
    add_line(page, argument.help);
    page.add_words_within("One of:", argument.values(), "\n");
}

/// Adds an argument as the heading of its command shows it.
fn add_use(page: &mut Page, argument: &Argument) {
    let (before, after) = match argument.kind {
        Kind::OneOf(_) => (" ", ""),
        Kind::Any => (" [", " ..]"),
        _ => (" [", "]"),
    };
    page.add(before);
    add_name(page, argument);
    page.add(after);
}

/// Adds the section of a command. Its heading is without the help option that each has.
fn add_command(page: &mut Page, row: &Row) {
    page.add_all(&[".SS ", row.name]);
    for argument in row.arguments {
        add_use(page, argument);
    }
    page.add("\n");
    add_line(page, row.about);
    for argument in row.arguments {
        add_argument(page, argument);
    }
    add_argument(page, &SHOW_HELP);
}

/// Adds the page.
pub fn add_page(page: &mut Page) {
    page.add(HEAD);
    add_line(page, PROGRAM_ABOUT);
    page.add(".SH OPTIONS\n");
    add_argument(page, &SHOW_HELP);
    add_argument(page, &SHOW_VERSION);
    page.add(COMMANDS);
    for row in rows() {
        add_command(page, &row);
    }
    page.add(".SH EXIT STATUS\n");
    add_line(page, PROGRAM_NOTES);
}
