//! Completions for zsh: a pattern for each command, over the command and the word before.

use super::{Cases, add_program_options, add_quoted};
use crate::commands::rows;
use crate::page::Page;

const HEAD: &str = "#compdef odb_batch\n\
    # Completions of odb_batch for zsh: source this text, or put it as _odb_batch into a folder of fpath.\n\
    _odb_batch() {\n    \
    local -a commands values options\n    \
    commands=(\n";

const FIRST: &str = "    )\n    \
    if ((CURRENT == 2)); then\n        \
    if [[ $PREFIX == -* ]]; then\n            \
    compadd --";

const BODY: &str = "\n        else\n            \
    _describe command commands\n        \
    fi\n        \
    return\n    \
    fi\n    \
    case \"$words[2] $words[CURRENT-1]\" in\n";

const TAIL: &str = "    esac\n    \
    if [[ $PREFIX == -* ]]; then\n        \
    compadd -a options\n    \
    elif (($#values)); then\n        \
    compadd -a values\n    \
    else\n        \
    _files\n    \
    fi\n\
    }\n\
    if [[ $funcstack[1] == _odb_batch ]]; then\n    \
    _odb_batch \"$@\"\n\
    else\n    \
    compdef _odb_batch odb_batch\n\
    fi\n";

const CASES: Cases = Cases {
    head: "    '",
    any: "compadd --; return ;;\n",
    value: ("compadd --", "; return ;;\n"),
    rest: ("values=(", ") options=(", ") ;;\n"),
};

/// Adds the script.
pub fn add_script(page: &mut Page) {
    page.add(HEAD);
    for row in rows() {
        page.add_all(&["        ", row.name, ":"]);
        add_quoted(page, row.about, "'\\''");
        page.add("\n");
    }
    page.add(FIRST);
    add_program_options(page);
    page.add(BODY);
    CASES.add(page);
    page.add(TAIL);
}
