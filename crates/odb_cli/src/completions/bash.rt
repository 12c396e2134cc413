//! Completions for bash: a pattern for each command, over the number of the word, the command and the
//! word before.

use super::{Cases, add_program_options};
use crate::commands::rows;
use crate::page::Page;

const HEAD: &str =
    "# Completions of odb_batch for bash: source this text, or put it where bash-completion looks.\n\
    _odb_batch() {\n    \
    local word=${COMP_WORDS[COMP_CWORD]} before=${COMP_WORDS[COMP_CWORD - 1]} words='' options=''\n    \
    COMPREPLY=()\n    \
    case \"$COMP_CWORD ${COMP_WORDS[1]} $before\" in\n    \
    '1 '*) words='";

const TAIL: &str = "    esac\n    \
    [[ $word == -* ]] && words=$options\n    \
    mapfile -t COMPREPLY < <(compgen -W \"$words\" -- \"$word\")\n\
    }\n\
    complete -o default -F _odb_batch odb_batch\n";

const CASES: Cases = Cases {
    head: "    *' ",
    any: "compopt +o default ;;\n",
    value: ("words='", "' ;;\n"),
    rest: ("words='", "' options='", "' ;;\n"),
};

/// Adds the script.
pub fn add_script(page: &mut Page) {
    page.add(HEAD);
    for row in rows() {
        page.add_all(&[" ", row.name]);
    }
    page.add("' options='");
    add_program_options(page);
    page.add("' ;;\n");
    CASES.add(page);
    page.add(TAIL);
}
