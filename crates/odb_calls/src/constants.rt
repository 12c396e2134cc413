//! What the packages for other languages need to know of the library beside its calls.

/// A JSON object: the names of the numbers of the header, in the order of these numbers; the limits; the headers that the requests of a
/// batch do not inherit from the request that carries it, that they may have for themselves, and that their answers do not show; the
/// preferences that are for the batch alone; and the ids to which no URL can refer.
pub const CONSTANTS: &str = r#"{"forms":["lines","json"],
"headers":{
"allowed":["accept","accept-charset","accept-language","client-request-id","content-language","content-type",
"idempotency-key","if-match","if-modified-since","if-none-match","if-unmodified-since","isolation","odata-isolation",
"odata-maxversion","odata-version","prefer","repeatability-first-sent","repeatability-request-id","traceparent",
"tracestate","x-correlation-id","x-csrf-token","x-request-id","x-requested-with"],
"allowed_prefixes":["sap-"],
"not_inherited":["accept","accept-encoding","connection","digest","expect","http2-settings","idempotency-key",
"keep-alive","prefer","proxy-connection","range","signature","signature-input","te","trailer","transfer-encoding",
"upgrade","x-http-method","x-http-method-override","x-method-override"],
"not_inherited_prefixes":["content-","if-","repeatability-"],
"not_shown":["connection","content-encoding","content-length","date","keep-alive","proxy-authenticate","server",
"set-cookie","te","trailer","transfer-encoding","upgrade"],
"of_connection":["accept-encoding","connection","content-length","host"],
"usually_dropped":["cache-control","date","pragma","user-agent"]},
"limits":{"body_levels":124,"document_bytes":16777216,"document_levels":127,"requests":10000,"width":10000},
"modes":["continue","stop"],
"orders":["first","last","wide"],
"preferences":["callback","continue-on-error","respond-async","wait"],
"reserved_ids":["all","batch","crossjoin","entity","id","metadata","root"],
"states":["waiting","ready","running","reported","skipped","undone"],
"steps":["none","start","report"]}"#;
