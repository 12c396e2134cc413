//! The commands that read no document: each prints a text.

use crate::command_line::Text;
use crate::commands::EXPLAIN;
use crate::completions::add_script;
use crate::ending::{Status, finish, out_of_memory};
use crate::explain::{add_explanations, add_table, first_unknown};
use crate::man::add_page;
use crate::page::Page;
use crate::parser::help_of;
use odb_engine::{Ended, EngineFault};
use odb_io::Output;
use std::alloc::Global;
use std::io;
use std::rt::Runtime;

/// Adds the help of a command, or of the program.
fn add_help(alloc: Global, page: &mut Page, name: Option<&str>) {
    match help_of(alloc, name) {
        Ok(text) => page.add(&text),
        Err(_) => page.fail(),
    }
}

/// Adds a text.
fn add_text(alloc: Global, page: &mut Page, text: &Text<'_>) {
    match text {
        Text::Faults => add_table(page),
        Text::Explanations(codes) => add_explanations(page, codes),
        Text::Completions(shell) => add_script(page, shell),
        Text::Manual => add_page(page),
        Text::Help(name) => add_help(alloc, page, *name),
    }
}

/// Writes a text to standard output.
fn write<R: Runtime>(rt: &R, text: &str) -> Result<Ended, EngineFault> {
    Output::new(io::writer(rt)).put_text(text)?;
    Ok(Ended::Done)
}

/// Prints a page.
fn print_page<R: Runtime>(rt: &R, page: &Page) -> Status {
    match page.text() {
        Ok(text) => finish(rt, write(rt, text)),
        Err(_) => out_of_memory(rt),
    }
}

/// Prints that there is no such fault, in the form in which `clap` rejects arguments.
fn reject<R: Runtime>(rt: &R, code: &str) -> Status {
    let usage = EXPLAIN.usage;
    let _ = eprintln!(rt;
        "error: there is no fault '{code}'; 'odb_batch explain' lists all\n\n\
        Usage: {usage}\n\n\
        For more information, try '--help'."
    );
    Status::WrongArguments
}

/// Returns the first of the codes or names that are to be explained and that no fault has.
fn unknown_in<'a>(text: &Text<'a>) -> Option<&'a str> {
    match text {
        Text::Explanations(codes) => first_unknown(codes),
        _ => None,
    }
}

/// Prints a text, or that there is no fault to explain.
pub fn print<R: Runtime + AllocGlobal>(rt: &R, text: &Text<'_>) -> Status {
    if let Some(code) = unknown_in(text) {
        return reject(rt, code);
    }
    let mut page = Page::new(rt.alloc());
    add_text(rt.alloc(), &mut page, text);
    print_page(rt, &page)
}
