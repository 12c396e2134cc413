//! Completions for fish: a line for each command and each option.

use super::add_quoted;
use crate::argument::{Argument, Row};
use crate::commands::{SHOW_HELP, SHOW_VERSION, rows};
use crate::page::Page;

const HEAD: &str =
    "# Completions of odb_batch for fish: put this text into ~/.config/fish/completions/odb_batch.fish.\n";

const FIRST: &str = "complete -c odb_batch -n __fish_use_subcommand";

/// Adds the beginning of a line for this command, or for the program.
fn add_condition(page: &mut Page, command: Option<&str>) {
    match command {
        None => page.add(FIRST),
        Some(name) => page.add_all(&[
            "complete -c odb_batch -n '__fish_seen_subcommand_from ",
            name,
            "'",
        ]),
    }
}

/// Adds what an option or a command does, and ends its line.
fn add_help(page: &mut Page, help: &str) {
    page.add(" -d ");
    add_quoted(page, help, "\\'");
    page.add("\n");
}

/// Adds the line of an option of a command, or of the program.
fn add_option(page: &mut Page, command: Option<&str>, option: &Argument) {
    add_condition(page, command);
    page.add_char_within(" -s ", option.short(), "");
    page.add_all(&[" -l ", option.id]);
    if option.value().is_some() {
        page.add(" -x");
        page.add_words_within(" -a '", option.values(), "'");
    }
    add_help(page, option.help);
}

/// Adds the lines of what may follow a command.
fn add_command(page: &mut Page, row: &Row) {
    for argument in row.arguments {
        if argument.is_option() {
            add_option(page, Some(row.name), argument);
        }
    }
    add_option(page, Some(row.name), &SHOW_HELP);
    for argument in row.arguments {
        if !argument.is_option() && !argument.values().is_empty() {
            add_condition(page, Some(row.name));
            page.add_words_within(" -f -a '", argument.values(), "'\n");
        }
    }
}

/// Adds the script.
pub fn add_script(page: &mut Page) {
    page.add(HEAD);
    add_option(page, None, &SHOW_HELP);
    add_option(page, None, &SHOW_VERSION);
    for row in rows() {
        page.add_all(&[FIRST, " -f -a ", row.name]);
        add_help(page, row.about);
    }
    for row in rows() {
        add_command(page, &row);
    }
}
