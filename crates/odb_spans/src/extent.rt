//! How far a JSON value reaches in a text, by its brackets and quotes.

ghost use Rattle.std.specs.Prelude.{◌≡◌, ◌≤◌, ◌<◌, ◌+◌, ◌-◌, ◌^◌, ℕ, suc, length, drop, get_or, MatchOption, IsUtf8};
ghost use Rattle.std.specs.Str.{IsCharBoundary};
ghost use Rattle.json.specs.Lex.{in_string};
ghost use Rattle.odb_spans.specs.Extents.{extent, value_extent};
ghost use Rattle.odb_spans.specs.States.{Begins, ContinuesText, Ends, IsAfter, Passes, mode_of};

use crate::byte::Kind;
use memchr::memchr2;

/// What the scan is inside.
#[derive(Clone, Copy)]
enum Mode {
    Between,
    /// A number or a literal.
    Word,
    Text,
    /// A string, after a backslash.
    Escape,
}

/// Returns what the scan is inside after a byte of a string.
fn in_text(kind: Kind) -> Mode
    ensures { ContinuesText kind result }
{
    match kind {
        Kind::Quote => Mode::Between,
        Kind::Backslash => Mode::Escape,
        _ => Mode::Text,
    }
}

/// The state of a scan: what it is inside, and how many brackets are open.
#[derive(Clone, Copy)]
struct State {
    mode: Mode,
    depth: usize,
}

impl State {
    /// Returns the state after a byte that neither a string nor a word contains.
    fn begun(kind: Kind, depth: usize) -> Self
        requires { depth + 1 < 2 ^ 64 }
        ensures begins { Begins kind depth result }
        ensures depth { result.depth ≤ depth + 1 }
    {
        let (mode, depth) = match kind {
            Kind::Quote => (Mode::Text, depth),
            Kind::Backslash | Kind::Other => (Mode::Word, depth),
            Kind::Open => (Mode::Between, depth + 1),
            Kind::Close => (Mode::Between, depth.saturating_sub(1)),
            Kind::Separator | Kind::Blank => (Mode::Between, depth),
        };
        State { mode, depth }
    }

    /// Returns the state after a byte that neither a string nor a word contains, or none if no bracket
    /// is open.
    fn begun_inside(self, kind: Kind) -> Option<Self>
        requires { self.depth + 1 < 2 ^ 64 }
        ensures { MatchOption result (self.depth ≡ 0)
            (λ next. (0 < self.depth) × Begins kind self.depth next × (next.depth ≤ self.depth + 1)) }
    {
        if self.depth == 0 {
            None
        } else {
            Some(State::begun(kind, self.depth))
        }
    }

    /// Returns the state after the byte, or none if the value ends before it.
    #[inline(always)]
    fn after(self, kind: Kind) -> Option<Self>
        requires { self.depth + 1 < 2 ^ 64 }
        ensures passes { MatchOption result (Ends kind self) (λ next. Passes kind self next) }
        ensures depth { MatchOption result (Unit {0}) (λ next. next.depth ≤ self.depth + 1) }
    {
        match self.mode {
            Mode::Escape => Some(State {
                mode: Mode::Text,
                ..self
            }),
            Mode::Text => Some(State {
                mode: in_text(kind),
                ..self
            }),
            Mode::Word if !kind.ends_word() => Some(self),
            Mode::Word => self.begun_inside(kind),
            Mode::Between => self.begun_inside(kind),
        }
    }

    /// Returns where the next byte is, from a position on, that may change the state.
    #[inline(always)]
    fn passed(self, text: &[u8], at: usize) -> usize
        requires { at ≤ length text.now }
        ensures extent { at + extent (mode_of self.mode) self.depth (drop at text.now) ≡ result + extent (mode_of self.mode) self.depth (drop result text.now) }
        ensures last { IsAfter (get_or text.now (at - 1) 0) self.mode → IsAfter (get_or text.now (result - 1) 0) self.mode }
        ensures after { at ≤ result }
        ensures within { result ≤ length text.now }
    {
        match self.mode {
            Mode::Text => plain_end(text, at),
            Mode::Between | Mode::Word | Mode::Escape => at,
        }
    }
}

/// Returns where the bytes from a position on end that are neither a quote nor a backslash.
#[inline(never)]
fn plain_end(text: &[u8], at: usize) -> usize
    requires { at ≤ length text.now }
    ensures extent { (n : ℕ) → at + extent in_string n (drop at text.now) ≡ result + extent in_string n (drop result text.now) }
    ensures after { at ≤ result }
    ensures within { result ≤ length text.now }
{
    match memchr2(b'"', b'\\', &text[at..]) {
        Some(found) => at + found,
        None => text.len(),
    }
}

/// Returns where the value ends that begins at a position, or the end of the text if it does not end.
pub(crate) fn value_end(text: &[u8], at: usize) -> usize
    requires { at ≤ length text.now }
    ensures extent { result ≡ at + value_extent (drop at text.now) }
    ensures within { result ≤ length text.now }
    ensures some { at < length text.now → at < result }
    ensures boundary { IsUtf8 text.now → IsCharBoundary text.now result }
{
    let Some(first) = Kind::at(text, at) else {
        return at;
    };
    let mut state = State::begun(first, 0);
    let start = state.passed(text, at + 1);
    let mut end = start;
    while end < text.len() {
        let Some(next) = state.after(Kind::of(text[end])) else {
            return end;
        };
        state = next;
        end = state.passed(text, end + 1);
    }
    end
}
