//! Responses of finished runs to a library: their text, and what a writer receives of it.

mod texts;
mod writers;

use odb_check::Plan;
use odb_doc::{Outcome, Request, TextFault};
use odb_exec::{ExecFault, Service, ServiceFault, Trace, execute};
use odb_io::Output;
use odb_reply::{ReplyFault, response_of, response_text, write_responses};
use odb_sched::{Done, Mode, Order, Policy};
use odb_testing::plans::{OnPlan, holds_of};
use serde_json::Value;
use std::alloc::{AllocError, Global};
use std::collections::BTreeMap;
use std::io::{self, Write};

/// Four requests: the second and the third are a group that depends on the first, and the last
/// depends on the group.
const USUAL: &str = r#"{"requests":[
    {"id":"0","method":"get","url":"/service/Customers('ALFKI')"},
    {"id":"1","atomicityGroup":"group1","dependsOn":["0"],"method":"patch",
        "url":"/service/Customers('ALFKI')","body":{"Name":"A"}},
    {"id":"2","atomicityGroup":"group1","dependsOn":["0"],"method":"post",
        "url":"/service/Customers","body":{"ID":7}},
    {"id":"3","dependsOn":["group1"],"method":"GET","url":"Products"}]}"#;

/// Two requests that do not depend on each other.
const TWO: &str = r#"{"requests":[{"id":"a","method":"get","url":"X"},
    {"id":"b","method":"get","url":"X"}]}"#;

/// What a request ends with: the status, the headers, and the JSON text of the body, which is empty for
/// none.
type Ending<'a> = (u16, &'a [(&'a str, &'a str)], &'a str);

/// Takes all bytes and remembers how many came in the longest call.
#[derive(Drop)]
struct Longest {
    bytes: Vec<u8>,
    longest: usize,
}

impl Write for Longest {
    fn write(&mut self, bytes: &[u8]) -> io::Result<usize> {
        self.longest = self.longest.max(bytes.len());
        self.bytes.extend_from_slice(bytes)?;
        Ok(bytes.len())
    }

    fn flush(&mut self) -> io::Result<()> {
        Ok(())
    }
}

fn insert(
    alloc: Global,
    headers: &mut BTreeMap<String, String>,
    name: &str,
    value: &str,
) -> Result<(), AllocError> {
    let name = String::from_str(alloc, name)?;
    headers.insert(name, String::from_str(alloc, value)?)?;
    Ok(())
}

fn headers_of(
    alloc: Global,
    listed: &[(&str, &str)],
) -> Result<BTreeMap<String, String>, AllocError> {
    let mut headers = BTreeMap::new(alloc);
    for (name, value) in listed {
        insert(alloc, &mut headers, name, value)?;
    }
    Ok(headers)
}

fn body_of(alloc: Global, text: &str) -> Option<Value> {
    if text.is_empty() {
        return None;
    }
    Value::from_str(alloc, text).ok()
}

/// Ends the first requests of a batch so, and has no outcome for the others.
#[derive(Clone, Copy, Drop)]
struct Endings<'a> {
    alloc: Global,
    endings: &'a [Ending<'a>],
}

impl Service for Endings<'_> {
    ghost offers = { λ _ _ _. Unit {0} };

    ghost performs = { λ _ _ _ _ _. Unit {0} };

    fn perform(&mut self, i: u32, _request: &Request<'_>) -> Result<Outcome, ServiceFault> {
        let Some((status, headers, body)) = self.endings.get(i as usize) else {
            return Err(ServiceFault::NoOutcome);
        };
        let headers = headers_of(self.alloc, headers).map_err(|_| ServiceFault::OutOfMemory)?;
        Outcome::new(self.alloc, *status, headers, body_of(self.alloc, body)).map_err(
            |_| ServiceFault::OutOfMemory,
        )
    }
}

/// Whether a response has this text, or a fault if the body of a request is refused.
fn is_text(found: &Result<String, TextFault>, wanted: Result<&str, usize>) -> bool {
    match found {
        Ok(text) => wanted == Ok(text.as_str()),
        Err(TextFault::NotWhole { at }) => wanted == Err(*at),
        Err(TextFault::OutOfMemory) => false,
    }
}

/// Whether the response to a finished run has this text, also if it is made of the plan and the run.
fn has_text(alloc: Global, done: &Done<'_>, wanted: Result<&str, usize>) -> bool {
    is_text(&response_text(alloc, done), wanted)
        && is_text(&response_of(alloc, done.plan(), &[], done.run()), wanted)
}

/// Whether the text is written, in pieces of which none is longer than this; nothing is written if the
/// body of a request is refused.
fn is_written(alloc: Global, done: &Done<'_>, wanted: Result<&str, usize>, longest: usize) -> bool {
    let mut output = Output::new(Longest {
        bytes: Vec::new(alloc),
        longest: 0,
    });
    let ended = write_responses(alloc, &mut output, done);
    let writer = output.into_inner();
    let (fault, text) = match wanted {
        Ok(text) => (Ok(()), text),
        Err(at) => (Err(ReplyFault::NotWhole { at }), ""),
    };
    ended == fault && writer.bytes.as_slice() == text.as_bytes() && writer.longest <= longest
}

/// How the requests of a batch end, the response or the first request whose body is refused, and how many
/// bytes the longest write may have.
#[derive(Clone, Copy)]
struct Reply<'a> {
    endings: &'a [Ending<'a>],
    wanted: Result<&'a str, usize>,
    longest: usize,
}

impl Reply<'_> {
    /// Whether the response to an execution is the one that is wanted.
    fn is_to(&self, alloc: Global, executed: &Result<Trace<'_>, ExecFault>) -> bool {
        match executed {
            Ok(trace) => {
                has_text(alloc, &trace.done, self.wanted)
                    && is_written(alloc, &trace.done, self.wanted, self.longest)
            }
            Err(_) => false,
        }
    }
}

impl OnPlan for Reply<'_> {
    fn holds(&self, alloc: Global, plan: &Plan<'_>) -> bool {
        let policy = Policy::free(Mode::Continue);
        let mut service = Endings {
            alloc,
            endings: self.endings,
        };
        self.is_to(
            alloc,
            &execute(alloc, plan, policy, &mut Order::First, &mut service),
        )
    }
}

/// Whether a batch whose requests end so has this response, and no write is longer than this.
fn replies(
    alloc: Global,
    document: &str,
    endings: &[Ending<'_>],
    wanted: Result<&str, usize>,
    longest: usize,
) -> bool {
    let reply = Reply {
        endings,
        wanted,
        longest,
    };
    holds_of(alloc, document, &reply)
}
