//! What the crates of tests share: rows of tables, the error of examples, plans of documents, and devices that are
//! slow or fail. It has no tests of its own.
#![tactic(auto)]

pub mod devices;
pub mod fail;
pub mod plans;
pub mod rows;

/// What two calls found, or `None` of one that ran out of memory.
pub type Two<X> = (Option<X>, Option<X>);

/// Two requests, of which the second needs the first and has a body.
pub const PAIR: &str = r#"{"requests":[{"id":"1","method":"get","url":"A"},
    {"id":"2","method":"PUT","url":"B","dependsOn":["1","1"],"body":{"b":"\u20ac","a":[1]}}]}"#;
